// A run of a scheme that was computed by hand, over three rows of two pages whose ages are 50, 50 and 90.
// Quotas, windows, filters and inactive slots are in the examples of scheme_engine and in whole runs.
ghost use Rattle.std.specs.Prelude.{◌≡◌, [], ◌∷◌, IfOk};
ghost use Rattle.std.specs.List.{AllByRecursion};
ghost use Rattle.damon_types.specs.Within.{AreWithin};
ghost use Rattle.scheme_engine.specs.Kept.{CountsWithin, StartBy};

use damon_types::{
    Action, Filters, Pattern, Prefer, Quota, Range, Ranges, Row, Scheme, SlotChange, Space, Span,
    Target, Weights,
};
use quota_charge::Window;
use region_list::{Regions, RowBuf, divide};
use scheme_engine::{Applied, AppliedRun, Engine, SlotChoice, SlotView, served_slots_are_kept};
use std::alloc::Global;
use std::process::Abort;
use std::test::Fail;

const ANY: Span = Span {
    low: 0,
    high: u32::MAX,
};

// A scheme for all rows, in which older ones come first, with a quota of three pages and a byte in 40 ticks.
fn oldest_first() -> Scheme {
    Scheme {
        action: Action::Pageout,
        pattern: Pattern {
            size: ANY,
            count: ANY,
            age: ANY,
        },
        quota: Some(Quota {
            bytes: 12_289,
            reset: 40,
            time: None,
        }),
        weights: Weights {
            size: 0,
            count: 0,
            age: 1,
        },
        prefer: Prefer::Hot,
        marks: None,
        filters: Filters::new(),
    }
}

fn row(start: u32, pages: u32, age: u32) -> Row {
    Row {
        target: 0,
        start,
        pages,
        count: 0,
        last: 0,
        age,
    }
}

// A run of slot 3.
fn run(start: u32, pages: u32, score: u32) -> AppliedRun {
    AppliedRun {
        slot: 3,
        target: 0,
        start,
        pages,
        score,
    }
}

// What the test runs on: the space, the regions and the engine, and what the last run was applied to.
#[derive(Drop)]
struct Scene {
    space: Space,
    regions: Regions,
    engine: Engine,
    applied: Applied,
}

// The six pages of the only target, as one range.
fn six_pages(alloc: Global) -> Result<Ranges, Fail>
    ensures { IfOk result
        (λ r. r.list ≡ record { target = 0; first = 0; pages = 6; class = 0 } ∷ []) }
{
    let mut ranges = Ranges::new(alloc, 1)?;
    ranges.push(Range {
        target: 0,
        first: 0,
        pages: 6,
        class: 0,
    });
    Ok(ranges)
}

// The three rows, where four are allowed.
fn three_rows(rt: &impl Abort, alloc: Global) -> Result<Regions, Fail>
    ensures ranges { IfOk result
        (λ r. r.ranges ≡ record { target = 0; first = 0; pages = 6; class = 0 } ∷ []) }
    ensures cap { IfOk result (λ r. r.cap ≡ 9) }
{
    let ranges = six_pages(alloc)?;
    let mut rows = RowBuf::new(alloc, 4)?;
    divide(&ranges, 1, 3, &mut rows);
    assert_eq!(rt; rows.len(), 3);
    let mut regions = Regions::new(alloc, 1, 9, 9)?;
    regions.replace(&ranges, &rows, 4);
    regions.set_values(0, 0, 0, 50);
    regions.set_values(1, 0, 0, 50);
    regions.set_values(2, 0, 0, 90);
    Ok(regions)
}

// The three rows, and an engine whose slots are empty.
fn new_scene(rt: &impl Abort, alloc: Global) -> Result<Scene, Fail>
    ensures within { IfOk result (λ s. AreWithin s.space s.regions.ranges) }
    ensures regions { IfOk result (λ s. s.regions.cap ≡ 9) }
    ensures engine { IfOk result (λ s. s.engine.cap ≡ 9) }
    ensures applied { IfOk result (λ s. s.applied.cap ≡ 9) }
    ensures counts { IfOk result (λ s. AllByRecursion (CountsWithin 0) s.engine.slots) }
    ensures windows { IfOk result (λ s. StartBy 0 s.engine.slots) }
{
    let space = Space::new(alloc, &[Target { base: 0, pages: 6 }])?;
    let regions = three_rows(rt, alloc)?;
    let engine = Engine::new(alloc, 9)?;
    let applied = Applied::new(alloc, 9)?;
    Ok(Scene {
        space,
        regions,
        engine,
        applied,
    })
}

impl Scene {
    // Sets slot 3, before the first run.
    fn set(&mut self, scheme: Scheme)
        requires counts { AllByRecursion (CountsWithin 0) self.old.engine.slots }
        requires windows { StartBy 0 self.old.engine.slots }
        ensures counts { AllByRecursion (CountsWithin 0) self.new.engine.slots }
        ensures windows { StartBy 0 self.new.engine.slots }
        ensures engine { self.new.engine.cap ≡ self.old.engine.cap }
        ensures space { self.new.space ≡ self.old.space }
        ensures regions { self.new.regions ≡ self.old.regions }
        ensures applied { self.new.applied ≡ self.old.applied }
    {
        // For its clauses alone: there is a slot 3.
        let _cap = self.engine.cap();
        self.engine.change(&SlotChange {
            slot: 3,
            scheme: Some(scheme),
        });
    }

    // The first run of the engine, at tick 20.
    fn run(&mut self)
        requires within { AreWithin self.old.space self.old.regions.ranges }
        requires regions { self.old.regions.cap ≡ 9 }
        requires engine { self.old.engine.cap ≡ 9 }
        requires applied { self.old.applied.cap ≡ 9 }
        requires counts { AllByRecursion (CountsWithin 0) self.old.engine.slots }
        requires windows { StartBy 0 self.old.engine.slots }
    {
        // For their clauses alone: the numbers stay small.
        served_slots_are_kept();
        let _count = self.regions.len();
        let _targets = self.space.targets();
        self.engine
            .run(&mut self.regions, &self.space, 20, 20, &mut self.applied);
    }
}

#[test]
fn the_oldest_pages_are_taken_first(rt: HostRuntime) -> Result<(), Fail> {
    let mut scene = new_scene(&rt, rt.alloc())?;
    scene.set(oldest_first());
    scene.run();
    let choice = SlotChoice {
        slot: 3,
        active: true,
        left: Some(3),
        taken: 3,
        lowest: Some(50),
    };
    let view = SlotView {
        action: Action::Pageout,
        active: true,
        window: Window {
            start: 0,
            charged: 3,
        },
        tried: 3,
        applied: 3,
        exceeds: 1,
    };
    assert_eq!(rt; scene.regions.len(), 4);
    let (applied, rows) = (&scene.applied, &scene.regions);
    assert_eq!(rt;
        (applied.runs(), applied.choices(), scene.engine.slot(3)),
        (
            [run(4, 2, 90), run(0, 1, 50)].as_slice(),
            [choice].as_slice(),
            Some(view)
        )
    );
    assert_eq!(rt;
        [rows.row(0), rows.row(1), rows.row(2), rows.row(3)],
        [row(0, 1, 0), row(1, 1, 50), row(2, 2, 50), row(4, 2, 0)]
    );
    Ok(())
}
