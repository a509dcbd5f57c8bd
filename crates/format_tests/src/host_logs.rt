//! A host's log keeps lines that follow on each other as one stretch.

use std::test::*;
use tas_core::*;
use tas_model::FrameId;

#[test]
fn lines_of_frames_that_follow_on_each_other_are_one_stretch(rt: HostRuntime) -> Result<(), Fail> {
    let mut log = HostLog::new(rt.alloc());
    for number in [1, 2, 3, 5] {
        let frame = FrameId {
            host: 4294967295,
            flow: 4294967295,
            number,
            copy: 0,
        };
        log.add(LogLine {
            tick: 7,
            event: LogEvent::Refused { frame, number: 9 },
        })?;
    }
    assert_eq!(rt; log.len(), 4);
    assert_eq!(rt; log.stretches().len(), 2);
    Ok(())
}
