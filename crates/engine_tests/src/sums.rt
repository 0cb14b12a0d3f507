// Sums by an index, computed by hand. The choice of pages is in the engine's own test.
use priority::Histogram;

// Two numbers at 50 and one at 90.
#[test]
fn sums_and_cuts(rt: HostRuntime) {
    let mut sums = Histogram::<100>::new();
    sums.add(50, 2);
    sums.add(50, 2);
    sums.add(90, 2);
    assert_eq!(rt; (sums.sum(50), sums.from(50), sums.from(91)), (4, 6, 0));
    assert_eq!(rt;
        (sums.cut(3), sums.cut(2), sums.cut(6)),
        (Some(50), Some(90), Some(50))
    );
    assert_eq!(rt; (sums.cut(7), sums.cut(0)), (None, Some(99)));
}
