//! Readers of the index beside its writer.

ghost use Rattle.std.specs.Prelude.{◌<◌};

use flow_index::*;
use std::alloc::AllocError;
use std::sync::Wait;
use std::test::*;
use std::thread;
use tas_model::{FlowId, FourTuple};

fn tuple(rport: u16) -> FourTuple {
    FourTuple {
        laddr: 0x0a00_0002,
        lport: 80,
        raddr: 0x0a00_0001,
        rport,
    }
}

fn flow(generation: u32) -> FlowId {
    FlowId {
        slot: 3,
        generation,
    }
}

// What is found before the first publish, after it, and of another four-tuple.
fn first_found<R: Wait>(
    rt: &R,
    writer: &mut IndexWriter,
    reader: &mut IndexReader,
) -> Result<[Found; 3], AllocError> {
    writer.put(tuple(49_152), flow(1))?;
    let before = reader.find(rt, tuple(49_152));
    writer.publish(rt)?;
    let after = reader.find(rt, tuple(49_152));
    Ok([before, after, reader.find(rt, tuple(49_153))])
}

// What is found after a second put, and after a remove.
fn later_found<R: Wait>(
    rt: &R,
    writer: &mut IndexWriter,
    reader: &mut IndexReader,
) -> Result<[Found; 2], AllocError> {
    writer.put(tuple(49_152), flow(2))?;
    writer.publish(rt)?;
    let again = reader.find(rt, tuple(49_152));
    writer.remove(tuple(49_152))?;
    writer.publish(rt)?;
    Ok([again, reader.find(rt, tuple(49_152))])
}

// What a reader finds in both.
fn found<R: Wait>(rt: &R, writer: &mut IndexWriter) -> Result<([Found; 3], [Found; 2]), AllocError>
    requires { 0 < writer.old.left }
{
    let mut reader = writer.reader(rt)?;
    let first = first_found(rt, writer, &mut reader)?;
    let later = later_found(rt, writer, &mut reader)?;
    Ok((first, later))
}

#[test]
fn what_is_published_is_found(rt: HostRuntime) -> Result<(), Fail> {
    let mut writer = IndexWriter::new(rt.alloc(), 1)?;
    let found = found(&rt, &mut writer);
    writer.end(&rt);
    let (first, later) = found?;
    assert_eq!(rt; first, [Found::Absent, Found::Flow(flow(1)), Found::Absent]);
    assert_eq!(rt; later, [Found::Flow(flow(2)), Found::Absent]);
    Ok(())
}

// Gives the four-tuple to one generation after another. Whether there was memory for it.
fn climb<R: Wait>(rt: &R, writer: &mut IndexWriter) -> bool {
    for generation in 1..101 {
        if writer.put(tuple(49_152), flow(generation)).is_err() || writer.publish(rt).is_err() {
            return false;
        }
    }
    true
}

// Whether no generation was found after a later one.
fn watch<R: Wait>(rt: &R, mut reader: IndexReader) -> bool {
    let mut last = 0;
    for _ in 0..100_000 {
        let generation = match reader.find(rt, tuple(49_152)) {
            Found::Flow(id) => id.generation,
            Found::Absent => 0,
        };
        if generation < last {
            return false;
        }
        if generation == 100 {
            return true;
        }
        last = generation;
    }
    true
}

#[test]
fn a_reader_beside_the_writer_never_goes_back(rt: HostRuntime) -> Result<(), Fail> {
    let mut writer = IndexWriter::new(rt.alloc(), 1)?;
    let reader = match writer.reader(&rt) {
        Ok(reader) => reader,
        Err(error) => {
            writer.end(&rt);
            return Err(error.into());
        }
    };
    let (lent, runtime) = (&mut writer, &rt);
    let (whole, in_order) = thread::join(
        &rt,
        move || climb(runtime, lent),
        move || watch(runtime, reader),
    );
    writer.end(&rt);
    assert!(rt; whole);
    assert!(rt; in_order);
    Ok(())
}
