// A pass over three pages with given results of its loads. The expected values were reckoned by hand.
// Aggregations, commits and worlds are in whole runs, the cases of tests/cases: a test that drives a monitor
// takes a minute or more to prove.
use crate::fixtures::{begin_pass, counts, end_pass, load, three_pages};
use damon_core::Monitor;
use std::test::Fail;

#[test]
fn a_pass_counts_its_hits(rt: HostRuntime) -> Result<(), Fail> {
    let setup = three_pages(rt.alloc())?;
    let mut monitor = Monitor::new(rt.alloc(), &setup)?;
    begin_pass(&rt, &mut monitor);
    for hit in [false, true, false] {
        load(&rt, &mut monitor, hit);
    }
    end_pass(&rt, &mut monitor);
    assert_eq!(rt; counts(&rt, &monitor), [0, 1, 0]);
    assert_eq!(rt;
        (monitor.ticks(), monitor.checks(), monitor.hits()),
        (1, 3, 1)
    );
    Ok(())
}
