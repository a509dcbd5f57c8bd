//! Packets and their refusals, against bytes of another program.

use segment_fields::*;
use std::test::*;
use tas_num::Seq;

/// A SYN from 10.0.0.1, port 40000, to 10.0.0.2, port 80.
const SYN: [u8; 40] = [
    0x45, 0x00, 0x00, 0x28, 0x00, 0x00, 0x40, 0x00, 0x40, 0x06, 0x26, 0xce, 0x0a, 0x00, 0x00, 0x01,
    0x0a, 0x00, 0x00, 0x02, 0x9c, 0x40, 0x00, 0x50, 0x00, 0x00, 0x00, 0x64, 0x00, 0x00, 0x00, 0x00,
    0x50, 0x02, 0xff, 0xff, 0xfe, 0xeb, 0x00, 0x00,
];

/// The answer to it, with an MSS of 1460.
const SYN_ACK: [u8; 44] = [
    0x45, 0x00, 0x00, 0x2c, 0x00, 0x00, 0x40, 0x00, 0x40, 0x06, 0x26, 0xca, 0x0a, 0x00, 0x00, 0x02,
    0x0a, 0x00, 0x00, 0x01, 0x00, 0x50, 0x9c, 0x40, 0x00, 0x00, 0x00, 0x00, 0x00, 0x00, 0x00, 0x65,
    0x60, 0x12, 0xff, 0xff, 0xe7, 0x1e, 0x00, 0x00, 0x02, 0x04, 0x05, 0xb4,
];

/// A SYN with the options MSS, SACK permitted, timestamps and window scale.
const SYN_WITH_OPTIONS: [u8; 60] = [
    0x45, 0x00, 0x00, 0x3c, 0x00, 0x00, 0x40, 0x00, 0x40, 0x06, 0x26, 0xba, 0x0a, 0x00, 0x00, 0x01,
    0x0a, 0x00, 0x00, 0x02, 0x9c, 0x40, 0x00, 0x50, 0x00, 0x00, 0x00, 0x64, 0x00, 0x00, 0x00, 0x00,
    0xa0, 0x02, 0xfa, 0xf0, 0x9c, 0x17, 0x00, 0x00, 0x02, 0x04, 0x05, 0xb4, 0x04, 0x02, 0x08, 0x0a,
    0x00, 0x00, 0x00, 0x01, 0x00, 0x00, 0x00, 0x00, 0x01, 0x03, 0x03, 0x07,
];

/// A SYN from port 49152 to port 80 with an MSS of 1460 and a window scale of 2, as another program wrote it.
const SCALED_SYN: [u8; 48] = [
    0x45, 0x00, 0x00, 0x30, 0x00, 0x00, 0x40, 0x00, 0x40, 0x06, 0x26, 0xc6, 0x0a, 0x00, 0x00, 0x01,
    0x0a, 0x00, 0x00, 0x02, 0xc0, 0x00, 0x00, 0x50, 0x00, 0x00, 0x03, 0xe8, 0x00, 0x00, 0x00, 0x00,
    0x70, 0x02, 0xff, 0xff, 0xab, 0xe2, 0x00, 0x00, 0x02, 0x04, 0x05, 0xb4, 0x01, 0x03, 0x03, 0x02,
];

/// The number of the rule that the bytes break, or 0.
fn broken_rule(bytes: &[u8], check_sums: bool) -> u8 {
    match read(bytes, check_sums) {
        Ok(_) => 0,
        Err(refused) => refused.number(),
    }
}

#[test]
fn each_change_breaks_its_rule(rt: HostRuntime) {
    assert_eq!(rt; broken_rule(&SYN, true), 0);
    assert_eq!(rt; broken_rule(&SYN[..19], false), 1);
    let changes = [
        (0, 0x65, false, 2),
        (0, 0x44, false, 3),
        (0, 0x4f, false, 3),
        (3, 19, false, 4),
        (3, 41, false, 4),
        (6, 0x20, false, 5),
        (7, 0x01, false, 5),
        (9, 0x11, false, 6),
        (32, 0x40, false, 8),
        (32, 0x60, false, 8),
        (3, 39, false, 8),
        (10, 0x27, true, 7),
        (34, 0xfe, true, 9),
        (34, 0xfe, false, 0),
    ];
    for (place, byte, check_sums, rule) in changes {
        let mut packet = SYN;
        if let Some(changed) = packet.get_mut(place) {
            *changed = byte;
        }
        assert_eq!(rt; broken_rule(&packet, check_sums), rule, "{byte} at {place}");
    }
}

#[test]
fn options_bear_an_mss_or_none(rt: HostRuntime) {
    let with_options = read(&SYN_WITH_OPTIONS, true).ok().and_then(|seg| seg.mss);
    assert_eq!(rt; with_options, Some(1460));
    let options = [
        ([2, 4, 5, 0xb4], Some(1460)),
        ([2, 0, 5, 0xb4], None),
        ([2, 1, 5, 0xb4], None),
        ([2, 5, 5, 0xb4], None),
        ([1, 1, 1, 2], None),
    ];
    for (option, mss) in options {
        let mut packet = SYN_ACK;
        packet[40..].copy_from_slice(&option);
        assert_eq!(rt; read(&packet, false).ok().map(|seg| seg.mss), Some(mss));
    }
}

#[test]
fn a_packet_is_written_as_another_program_does(rt: HostRuntime) {
    let seg = Segment {
        src: 0x0a00_0002,
        dst: 0x0a00_0001,
        sport: 80,
        dport: 40000,
        seq: Seq(0),
        ack: Seq(101),
        flags: Flags::SYN.with(Flags::ACK),
        window: 65535,
        mss: Some(1460),
        scale: None,
        payload: &[],
    };
    let mut packet = [0; 44];
    assert_eq!(rt; write(&seg, &mut packet), Ok(44));
    assert!(rt; packet == SYN_ACK);
    let mut short = [0; 43];
    assert_eq!(rt; write(&seg, &mut short), Err(NoRoom));
}

#[test]
fn a_window_scale_is_written_as_another_program_does(rt: HostRuntime) {
    let seg = Segment {
        src: 0x0a00_0001,
        dst: 0x0a00_0002,
        sport: 49152,
        dport: 80,
        seq: Seq(1000),
        ack: Seq(0),
        flags: Flags::SYN,
        window: 65535,
        mss: Some(1460),
        scale: Some(2),
        payload: &[],
    };
    let mut packet = [0; 48];
    assert_eq!(rt; write(&seg, &mut packet), Ok(48));
    assert!(rt; packet == SCALED_SYN);
}
