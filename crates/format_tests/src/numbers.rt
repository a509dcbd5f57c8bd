//! Places, sums and streams, against numbers from outside.

use std::test::*;
use tas_num::*;

#[test]
fn places_are_the_nearest_numbers(rt: HostRuntime) {
    for (near, seq, want) in [
        (10, 12, Some(12)),
        (10, 4294967290, None),
        (4294967297, 4294967290, Some(4294967290)),
        (2147483658, 10, Some(10)),
        (2147483659, 10, Some(4294967306)),
    ] {
        assert_eq!(rt; place(near, Seq(seq)), want, "{seq} near {near}");
    }
}

#[test]
fn the_sum_of_no_words_is_all_ones(rt: HostRuntime) {
    assert_eq!(rt; Sum16::new().finish(), 65535);
}

/// The IPv4 header that RFC 1071's method is commonly shown on, with its checksum b861.
#[test]
fn a_header_sums_to_its_checksum(rt: HostRuntime) {
    let header = [
        0x45, 0, 0, 0x73, 0, 0, 0x40, 0, 0x40, 0x11, 0, 0, 0xc0, 0xa8, 0, 1, 0xc0, 0xa8, 0, 0xc7,
    ];
    let mut sum = Sum16::new();
    sum.add_bytes(&header);
    assert_eq!(rt; sum.finish(), 0xb861);
}

#[test]
fn a_source_fails_at_the_reads_it_is_told_to(rt: HostRuntime) -> Result<(), Fail> {
    let mut source = MemSource::new(rt.alloc(), b"abc", &[1])?;
    let mut buf = [0u8; 2];
    assert_eq!(rt; source.read(&mut buf), Ok(2));
    assert_eq!(rt; buf, *b"ab");
    assert_eq!(rt; source.read(&mut buf), Err(IoFault::Failed));
    assert_eq!(rt; source.read(&mut buf), Ok(1));
    assert_eq!(rt; source.read(&mut buf), Ok(0));
    let mut sure = SureSource::new(rt.alloc(), b"d")?;
    assert_eq!(rt; sure.read(&mut buf), Ok(1));
    Ok(())
}

#[test]
fn a_small_sink_holds_what_fits(rt: HostRuntime) -> Result<(), Fail> {
    let mut sink = MemSink::new(rt.alloc(), 4)?;
    assert_eq!(rt; sink.write(b"abc"), Ok(3));
    assert_eq!(rt; sink.write(b"de"), Ok(1));
    assert_eq!(rt; sink.write(b"e"), Err(IoFault::Failed));
    assert_eq!(rt; sink.written(), b"abcd".as_slice());
    let mut sure = SureSink::new(rt.alloc());
    assert_eq!(rt; sure.write(b"fg"), Ok(2));
    assert_eq!(rt; sure.written(), b"fg".as_slice());
    assert_eq!(rt; write_all(&mut sure, b"hi"), Ok(()));
    assert_eq!(rt; sure.written(), b"fghi".as_slice());
    Ok(())
}
