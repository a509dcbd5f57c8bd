//! The bucket and the control of its rate, against numbers of another program.

use rate_bucket::*;
use std::test::*;

#[test]
fn one_interval_of_control(rt: HostRuntime) {
    let quiet = Counters {
        acked: 2_920,
        fast: 0,
        timeouts: 0,
        flight: 0,
    };
    let lost = Counters {
        acked: 0,
        fast: 0,
        timeouts: 1,
        flight: 5_840,
    };
    let thrice = Counters {
        acked: 0,
        fast: 1,
        timeouts: 0,
        flight: 8_760,
    };
    let many = Counters {
        acked: 5_000,
        fast: 0,
        timeouts: 0,
        flight: 0,
    };
    assert_eq!(rt; interval(&quiet, 1_460, 4_380, 65_535), (7_300, 65_535));
    assert_eq!(rt; interval(&lost, 1_460, 5_840, 65_535), (1_460, 2_920));
    assert_eq!(rt; interval(&thrice, 1_460, 8_760, 65_535), (4_380, 4_380));
    assert_eq!(rt; interval(&quiet, 1_460, 14_600, 7_300), (14_892, 7_300));
    assert_eq!(rt; interval(&many, 1_460, 65_000, 65_535), (65_535, 65_535));
}

#[test]
fn a_bucket_gives_what_it_has(rt: HostRuntime) {
    let mut bucket = Bucket::full(4_380, 1_460);
    bucket.take(4_000);
    bucket.tick();
    assert_eq!(rt; bucket.tokens, 1_840);
    bucket.resize(1_460, 1_460);
    assert_eq!(rt; bucket.tokens, 1_460);
    bucket.tick();
    assert_eq!(rt; bucket.tokens, 1_460);
}
