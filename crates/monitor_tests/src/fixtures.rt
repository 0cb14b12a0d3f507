// A target of three pages that is watched whole, a row for each page, and the steps of its passes.
use damon_core::Monitor;
use damon_types::{Attrs, RangeSpec, Space, Target, Version};
use live_commit::{Phase, Setup};
use std::alloc::Global;
use std::process::Abort;
use std::test::Fail;

// The setup, with an aggregation after five passes.
pub fn three_pages(alloc: Global) -> Result<Setup, Fail> {
    let target = Target {
        base: 0x1_0000,
        pages: 3,
    };
    let attrs = Attrs {
        min: 3,
        max: 8,
        aggr: 5,
    };
    let range = RangeSpec {
        target: 0,
        from: 0x1_0000,
        to: 0x1_3000,
        class: 0,
    };
    let space = Space::new(alloc, &[target])?;
    let setup = Setup::new(alloc, Version::One, space, 1, 8, attrs, &[range], &[])?;
    Ok(setup)
}

// Prepares a pass of three rows. A row has one page, so any word picks it.
fn prepare(rt: &impl Abort, monitor: &mut Monitor) {
    let Phase::Idle = monitor.phase() else {
        panic!(rt; "no pass comes next");
    };
    assert_eq!(rt; monitor.rows().len(), 3);
    monitor.prepare(&[5, 6, 7]);
}

// Clears the next pick, whose page is this one.
fn clear(rt: &impl Abort, monitor: &mut Monitor, page: u32) {
    let Phase::Clearing { next } = monitor.phase() else {
        panic!(rt; "no clear comes next");
    };
    assert_eq!(rt; monitor.pick(next), page);
    monitor.cleared();
}

// Prepares a pass of three rows, and clears its picks.
pub fn begin_pass(rt: &impl Abort, monitor: &mut Monitor) {
    prepare(rt, monitor);
    for page in 0..3 {
        clear(rt, monitor, page);
    }
}

// Loads the next pick, with this result.
pub fn load(rt: &impl Abort, monitor: &mut Monitor, hit: bool) {
    match monitor.phase() {
        Phase::Armed => monitor.loaded(hit),
        Phase::Checking { next } => {
            assert!(rt; next < monitor.rows().len());
            monitor.loaded(hit);
        }
        _ => panic!(rt; "no load comes next"),
    }
}

// Ends the pass, whose picks are all loaded.
pub fn end_pass(rt: &impl Abort, monitor: &mut Monitor) {
    let Phase::Checking { next } = monitor.phase() else {
        panic!(rt; "no end comes next");
    };
    assert_eq!(rt; next, monitor.rows().len());
    assert!(rt; monitor.ticks() < 1_000);
    monitor.observe();
}

// The counts of three rows.
pub fn counts(rt: &impl Abort, monitor: &Monitor) -> [u32; 3] {
    let rows = monitor.rows();
    assert_eq!(rt; rows.len(), 3);
    [rows.row(0).count, rows.row(1).count, rows.row(2).count]
}
