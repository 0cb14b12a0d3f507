ghost use Rattle.std.specs.Prelude.{◌≡◌, ◌∷◌, [], Ok, IfOk};
ghost use Rattle.damon_types.specs.Space.{checked};
ghost use Rattle.live_commit.specs.SetupView.{value_of};
ghost use Rattle.trace_gen.specs.Gen.{gen_scheme, gen_setup};

use damon_types::{
    Action, Attrs, Filters, PAGE_SIZE, Pattern, Prefer, Quota, RangeSpec, Scheme, SlotChange,
    Space, Span, Target, Version, Weights,
};
use live_commit::Setup;
use std::alloc::{AllocError, Global};

// The pages of the one target.
const PAGES: u32 = 1_024;

// Every number.
const ANY: Span = Span {
    low: 0,
    high: u32::MAX,
};

// The setup of every generated script.
pub fn make_setup(alloc: Global) -> Result<Setup, AllocError>
    ensures { IfOk result (λ s. value_of s ≡ gen_setup) }
{
    let target = Target {
        base: 0x0,
        pages: PAGES,
    };
    let space = make_space(alloc, target)?;
    let attrs = Attrs {
        min: 10,
        max: 100,
        aggr: 20,
    };
    let watched = RangeSpec {
        target: 0,
        from: 0x0,
        to: u64::from(PAGES) * PAGE_SIZE,
        class: 0,
    };
    let slot = SlotChange {
        slot: 0,
        scheme: Some(make_scheme()),
    };
    Setup::of_checked(
        alloc,
        Version::One,
        space,
        1,
        100,
        attrs,
        &[watched],
        &[slot],
    )
}

// The scheme of slot 0.
fn make_scheme() -> Scheme
    ensures { result ≡ gen_scheme }
{
    Scheme {
        action: Action::Pageout,
        pattern: Pattern {
            size: ANY,
            count: Span { low: 0, high: 0 },
            age: Span {
                low: 2,
                high: u32::MAX,
            },
        },
        quota: Some(Quota {
            bytes: 409_600,
            reset: 20,
            time: None,
        }),
        weights: Weights {
            size: 1,
            count: 1,
            age: 1,
        },
        prefer: Prefer::Cold,
        marks: None,
        filters: Filters::new(),
    }
}

// The space of one target that is within its limits.
fn make_space(alloc: Global, target: Target) -> Result<Space, AllocError>
    requires { checked (target ∷ []) ≡ Ok tt }
    ensures { IfOk result (λ space. space ≡ target ∷ []) }
{
    match Space::new(alloc, &[target]) {
        Ok(space) => Ok(space),
        // The target is within its limits, so memory ran out.
        Err(_) => Err(AllocError),
    }
}
