//! Rings: bytes past a gap, round the end, and behind a rewind.

use payload_ring::*;
use std::test::*;

#[test]
fn a_byte_ahead_is_taken_in_order(rt: HostRuntime) -> Result<(), Fail> {
    let mut ring = Ring::new(rt.alloc(), 4)?;
    ring.append(b"abc");
    assert_eq!(rt; ring.room(), 1);
    ring.put_at(3, b"d");
    ring.advance(1);
    let mut read = [0; 3];
    ring.copy_out(1, &mut read);
    assert_eq!(rt; read, *b"bcd");
    ring.drop_front(4);
    assert_eq!(rt; ring.room(), 4);
    Ok(())
}

#[test]
fn bytes_are_kept_round_the_end(rt: HostRuntime) -> Result<(), Fail> {
    let mut ring = Ring::new(rt.alloc(), 5)?;
    ring.append(b"abcd");
    ring.drop_front(3);
    ring.put_at(6, b"gh");
    ring.append(b"ef");
    assert_eq!(rt;
        (ring.base(), ring.end(), ring.len(), ring.size()),
        (3, 6, 3, 5)
    );
    let mut read = [0; 5];
    ring.copy_out(3, &mut read);
    assert_eq!(rt; read, *b"defgh");
    Ok(())
}

#[test]
fn a_ring_that_was_emptied_and_rewound_goes_on_at_its_place(rt: HostRuntime) -> Result<(), Fail> {
    let mut ring = Ring::new(rt.alloc(), 4)?;
    ring.append(b"abc");
    ring.drop_front(3);
    ring.rewind();
    ring.put_at(4, b"ef");
    ring.append(b"d");
    ring.advance(2);
    let mut read = [0; 3];
    ring.copy_out(3, &mut read);
    assert_eq!(rt; read, *b"def");
    assert_eq!(rt; (ring.base(), ring.end()), (3, 6));
    Ok(())
}
