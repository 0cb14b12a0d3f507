// Words from a later position on are the last of those from the first position on.
use damon_journal::words_at;
use std::process::Abort;

// Checks that the words from position 3 on are the last two of five.
fn check_last_two(rt: &impl Abort, seed: u64) {
    let mut five = [0; 5];
    words_at(seed, 0, &mut five);
    let mut two = [0; 2];
    words_at(seed, 3, &mut two);
    assert_eq!(rt; two, [five[3], five[4]]);
}

#[test]
fn words_have_their_positions(rt: HostRuntime) {
    for seed in [
        0,
        1,
        2,
        42,
        54,
        0x8000_0000,
        0x0123_4567_89ab_cdef,
        u64::MAX,
    ] {
        check_last_two(&rt, seed);
    }
}
