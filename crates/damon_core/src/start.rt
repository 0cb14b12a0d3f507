// A monitor before its first pass: its rows, its slots, and the state that it stands for.
ghost use Rattle.std.specs.Prelude.{◌≡◌, ◌≤◌, length, IfOk};
ghost use Rattle.std.specs.List.{AllByRecursion};
ghost use Rattle.damon_types.specs.Span.{spans};
ghost use Rattle.region_list.specs.Regions.{IsRegionList};
ghost use Rattle.region_list.specs.Tiling.{Tiling};
ghost use Rattle.live_commit.specs.SetupView.{value_of};
ghost use Rattle.damon_core.specs.Kept.{IsUnused};
ghost use Rattle.damon_core.specs.Reached.{ReachedByHit};
ghost use Rattle.damon_core.specs.Slots.{slots_of};
ghost use Rattle.damon_core.specs.State.{opening, opening_core, opening_notes};

use live_commit::Setup;
use region_list::{Regions, RowBuf, divide, shrink_rows};
use scheme_engine::Engine;
use std::alloc::{AllocError, Global};

// The opening state of a setup is reached, by no events.
pub(crate) fn opening_is_reached(setup: &Setup)
    ensures { ReachedByHit (opening (value_of setup.now)) }
{
    // For their clauses alone: the targets are within their limits, and the ranges are in order.
    let (_targets, _ranges) = (setup.space.targets(), setup.ranges.len());
}

// The slots of a monitor before its first pass: those of the setup are set.
pub(crate) fn first_engine(alloc: Global, setup: &Setup) -> Result<Box<Engine>, AllocError>
    ensures slots { IfOk result (λ e. e.value.slots ≡ slots_of (opening_notes (value_of setup.now))) }
    ensures cap { IfOk result (λ e. e.value.cap ≡ setup.now.cap) }
    ensures new { IfOk result (λ e. AllByRecursion IsUnused e.value.slots) }
{
    let mut engine = Engine::new(alloc, setup.cap)?;
    for change in setup.slots.as_slice() {
        engine.change(change);
    }
    Ok(Box::new(alloc, engine)?)
}

// The regions of a monitor before its first pass.
pub(crate) fn first_regions(alloc: Global, setup: &Setup) -> Result<Regions, AllocError>
    ensures regions { IfOk result (λ r. r ≡ (opening_core (value_of setup.now)).regions) }
    ensures kept { IfOk result (λ r. IsRegionList r) }
{
    let rows = first_rows(alloc, setup)?;
    let mut regions = Regions::new(alloc, setup.unit, setup.cap, setup.attrs.max)?;
    regions.replace(&setup.ranges, &rows, setup.attrs.max);
    Ok(regions)
}

// The rows of a monitor before its first pass.
#[tactic(auto, using(crate::proofs::RowFacts::tiling_of_pages))]
fn first_rows(alloc: Global, setup: &Setup) -> Result<RowBuf, AllocError>
    ensures rows { IfOk result (λ b. b.rows ≡ (opening_core (value_of setup.now)).regions.rows) }
    ensures tiling { IfOk result (λ b. Tiling setup.now.unit setup.now.ranges.list (spans b.rows)) }
    ensures few { IfOk result (λ b. length b.rows ≤ setup.now.attrs.max) }
{
    let mut rows = RowBuf::new(alloc, setup.ranges.len() + setup.attrs.min)?;
    divide(&setup.ranges, setup.unit, setup.attrs.min, &mut rows);
    shrink_rows(&mut rows, &setup.ranges, setup.attrs.max);
    Ok(rows)
}
