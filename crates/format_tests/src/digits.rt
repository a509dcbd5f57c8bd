//! Digits of bytes, against those of another library.

use run_texts::Writer;
use std::test::*;
use tas_num::SureSink;

#[test]
fn many_digits_are_those_of_another_library(rt: HostRuntime) -> Result<(), Fail> {
    let mut bytes = Vec::new(rt.alloc());
    for i in 0..5000_u16 {
        bytes.push((i % 256) as u8)?;
    }
    let mut sink = SureSink::new(rt.alloc());
    let mut writer = Writer::new(rt.alloc())?;
    assert!(rt; writer.put(&mut sink, b"-").is_ok());
    assert!(rt; writer.put_hex(&mut sink, &bytes).is_ok());
    assert!(rt; writer.finish(&mut sink).is_ok());
    let mut expected = String::from_str(rt.alloc(), "-")?;
    expected.push_str(&hex::encode(rt.alloc(), &bytes)?)?;
    assert_eq!(rt; sink.written(), expected.as_bytes());
    Ok(())
}

/// Each byte at each place of a vector and behind the last one, read and written at any alignment.
#[test]
fn digits_of_every_length_are_those_of_another_library(rt: HostRuntime) -> Result<(), Fail> {
    let mut bytes = Vec::new(rt.alloc());
    for i in 0..296_u16 {
        bytes.push((i % 256) as u8)?;
    }
    let mut sink = SureSink::new(rt.alloc());
    let mut writer = Writer::new(rt.alloc())?;
    let mut expected = String::new(rt.alloc());
    for start in 0..256_usize {
        for len in 0..41_usize {
            let piece = bytes.get(start..start + len).ok_or("the bytes end")?;
            assert!(rt; writer.put(&mut sink, b"-").is_ok());
            assert!(rt; writer.put_hex(&mut sink, piece).is_ok());
            expected.push_str("-")?;
            expected.push_str(&hex::encode(rt.alloc(), piece)?)?;
        }
    }
    assert!(rt; writer.finish(&mut sink).is_ok());
    assert_eq!(rt; sink.written(), expected.as_bytes());
    Ok(())
}
