//! Texts of scenarios and their refusals, against those of another program.

use scenario_text::{ScenarioFault, bulk_scenario, print_scenario, read_scenario};
use std::test::*;

/// Two hosts, a server and a client.
const TWO: &[u8] =
    b"host a 10.0.0.1 iss 1000 rto 3\nhost b 10.0.0.2 iss 5000 rto 3\napp b server\nlisten lst 80\naccept s lst\nrecv s 5\nsend s world\nclose s\napp a client\nconnect s b 80\nsend s hello\nrecv s 5\nclose s\n";

/// The first refused line and its kind, or 0 and 0 where the text is a scenario.
fn refused(rt: HostRuntime, text: &[u8]) -> Result<(u64, u8), Fail> {
    match read_scenario(rt.alloc(), text) {
        Ok(_) => Ok((0, 0)),
        Err(ScenarioFault::Refused { line, kind }) => Ok((line, kind)),
        Err(ScenarioFault::OutOfMemory) => Err(Fail::new("out of memory")),
    }
}

#[test]
fn texts_are_read_or_refused_by_line_and_kind(rt: HostRuntime) -> Result<(), Fail> {
    let texts: [(&[u8], u64, u8); 25] = [
        (b"", 1, 9),
        (b"host a 10.0.0.1", 0, 0),
        (TWO, 0, 0),
        (b"host a 10.0.0.1\n# \xcd\n", 2, 2),
        (b"host a 10.0.0.1\nlimit   5  \n   \n", 0, 0),
        (b"host a 10.0.0.1\napp a x\nlisten l 80\nsend l t\n", 4, 6),
        (
            b"host a 10.0.0.1\napp a x\nconnect s a 80\ndrop a 7 7\nsend s  \n",
            0,
            0,
        ),
        (b"host a 10.0.0.1\napp a x\nconnect s a 80\nsend s \n", 4, 4),
        (b"host a 10.0.0.1\r", 1, 2),
        (b"host a 10.0.0.1\r\n", 0, 0),
        (b"host a 10.0.0.1\napp a x\nsend s t\n", 3, 6),
        (b"host a 10.0.0.1\napp a x\nwait 3\nkill a x at 0\n", 0, 0),
        (
            b"host a 10.0.0.1 iss 1 iss 1 iss 1 iss 1 iss 1 iss 1 iss 1\n",
            1,
            7,
        ),
        (
            b"host a 10.0.0.1 iss 1 iss 1 iss 1 iss 1 iss 1 iss 1 iss 1 iss 1\n",
            1,
            4,
        ),
        (b"host a 10.0.0.1\nhost b 10.0.0.2 foo bar\n", 2, 6),
        (b"host a 10.0.0.1\nhost b 10.0.0.2 iss\n", 2, 4),
        (b"hosts a 10.0.0.1\n", 1, 3),
        (b"host a 10.0.0.01\n", 1, 5),
        (b"host a 10.0.0.1\nhost a 10.0.0.2\n", 2, 7),
        (b"host a 10.0.0.1\ndrop a 0 0\ndup a 0 0\n", 3, 7),
        (b"host a 10.0.0.1\nlimit 5\nlimit 5\nlimit\n", 3, 7),
        (b"host a 10.0.0.1\nmove a 64 0 on 1\n", 2, 5),
        (b"host a 10.0.0.1\nmove a 63 0 on 1\n", 2, 6),
        (
            b"host a 1.0.0.1\nhost b 1.0.0.2\nhost c 1.0.0.3\nhost d 1.0.0.4\nhost e 1.0.0.5\nhost f 1.0.0.6\nhost g 1.0.0.7\nhost h 1.0.0.8\nhost i 1.0.0.9\n",
            9,
            8,
        ),
        (b"host a 10.0.0.1\nkill a x at 0\nfoo\n", 2, 6),
    ];
    for (text, line, kind) in texts {
        let found = refused(rt, text)?;
        assert!(rt; found == (line, kind));
    }
    Ok(())
}

#[test]
fn long_lines_are_refused_without_their_ends(rt: HostRuntime) -> Result<(), Fail> {
    for (length, line, kind) in [(4096, 2, 9), (4097, 1, 1)] {
        let mut text = Vec::new(rt.alloc());
        for _ in 0..length {
            text.push(b'#')?;
        }
        text.extend_from_slice(b"\r\n")?;
        assert!(rt; refused(rt, &text)? == (line, kind));
    }
    Ok(())
}

#[test]
fn texts_cut_or_changed_at_each_byte_are_read_or_refused(rt: HostRuntime) -> Result<(), Fail> {
    let mut scenarios = Vec::new(rt.alloc());
    for at in 0..TWO.len() {
        if refused(rt, &TWO[..at])? == (0, 0) {
            scenarios.push(at)?;
        }
        for byte in [b'0', b' ', b'\n', 255] {
            let mut text = Vec::from_slice(rt.alloc(), TWO)?;
            text[at] = byte;
            let (line, _) = refused(rt, &text)?;
            assert!(rt; line <= 14);
        }
    }
    // The first line is whole from its address on, and most cuts behind it end in no line.
    assert!(rt; scenarios.len() > 13 && scenarios.len() < TWO.len());
    Ok(())
}

#[test]
fn a_scenario_is_printed_with_all_its_options(rt: HostRuntime) -> Result<(), Fail> {
    let texts: [(&[u8], &[u8]); 2] = [
        (
            b"host a 10.0.0.1",
            b"limit 1000\nhost a 10.0.0.1 iss 0 ring 16384 mss 1460 rto 20 slots 1024 backlog 16\n",
        ),
        (
            b"host a 1.2.3.4 rto 3\ndropeach a 7\ncorrupt a 1 0 2\napp a x\nwait 3\nmove a 1 2 at 3\nkill a x at 7 holding\n",
            b"limit 1000\nhost a 1.2.3.4 iss 0 ring 16384 mss 1460 rto 3 slots 1024 backlog 16\napp a x\nwait 3\ncorrupt a 1 0 2\ndropeach a 7\nmove a 1 2 at 3\nkill a x at 7 holding\n",
        ),
    ];
    for (text, printed) in texts {
        match read_scenario(rt.alloc(), text) {
            Ok(scenario) => {
                assert_eq!(rt; scenario.host(b"a"), Some(0));
                assert_eq!(rt; scenario.host(b"b"), None);
                let text = print_scenario(rt.alloc(), &scenario)?;
                assert!(rt; text.as_slice() == printed);
            }
            Err(_) => assert!(rt; false),
        }
    }
    Ok(())
}

/// What `bulk 1` is, with all its options.
const BULK_ONE: &str = "\
limit 5000\n\
host a 10.0.0.1 iss 0 ring 16384 mss 1460 rto 8 slots 1024 backlog 16\n\
host b 10.0.0.2 iss 0 ring 16384 mss 1460 rto 8 slots 1024 backlog 16\n\
app b s0\n\
listen l 1000\n\
accept s l\n\
drain s\n\
close s\n\
app a c0\n\
connect s b 1000\n\
fill s 65536\n\
close s\n\
dropeach a 7\n\
";

#[test]
fn a_made_scenario_has_a_server_for_each_client(rt: HostRuntime) -> Result<(), Fail> {
    let one = bulk_scenario(rt.alloc(), 1)?;
    let text = print_scenario(rt.alloc(), &one)?;
    assert!(rt; text.as_slice() == BULK_ONE.as_bytes());
    let three = bulk_scenario(rt.alloc(), 3)?;
    assert_eq!(rt; three.apps.len(), 6);
    assert!(rt; three.apps.item(5).name.as_slice() == b"c2".as_slice());
    Ok(())
}
