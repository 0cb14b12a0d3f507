// Serving one slot.
ghost use Rattle.std.specs.Prelude.{◌≡◌, ◌+◌, ◌*◌, ◌≤◌, ◌<◌, ◌++◌, ◌∷◌, [], length, Some, IsSome, IfSome};
ghost use Rattle.damon_types.specs.Within.{AreWithin};
ghost use Rattle.scheme_engine.specs.Engine.{FitsSlot};
ghost use Rattle.scheme_engine.specs.InContext.{outcome_in, slot_served_in};

use crate::apply::apply;
use crate::candidates::gather;
use crate::cut::cut_part;
use crate::pages::{Context, ServedScheme};
use crate::slot::Slot;
use crate::{Applied, RUNS_PER_ROW, SLOTS, SlotChoice};
use priority::{Candidates, Chosen};
use region_list::Regions;
use scheme_filter::MAX_RUNS;

/// What a run of a scheme amounts to, besides the runs and the rows.
struct Counts {
    /// How many rows match.
    tried: u32,
    /// The choice among the candidates.
    chosen: Chosen,
}

// Serves a slot: begins a new window if it is due, and runs the scheme of a slot that is set and active.
pub(crate) fn serve(
    slot: &mut Slot,
    context: &Context,
    candidates: &mut Candidates,
    regions: &mut Regions,
    applied: &mut Applied,
)
    requires window { IsSome slot.old.set → slot.old.window.start ≤ context.now.tick }
    requires within { AreWithin context.now.space.now regions.old.ranges }
    requires aggr { 1 ≤ context.now.aggr }
    requires cap { candidates.old.cap ≡ regions.old.cap }
    requires room { length applied.old.runs + MAX_RUNS * regions.old.cap
        ≤ RUNS_PER_ROW * applied.old.cap }
    requires choices { length applied.old.choices < SLOTS }
    requires fits { FitsSlot (slot_served_in context.now regions.old slot.old).slot }
    ensures slot { slot.new ≡ (slot_served_in context.now regions.old slot.old).slot }
    ensures rows { regions.new ≡ record regions.old {
      rows = (slot_served_in context.now regions.old slot.old).rows;
    } }
    ensures applied { applied.new ≡ record applied.old {
      runs = applied.old.runs ++ (slot_served_in context.now regions.old slot.old).runs;
      choices = applied.old.choices ++ (slot_served_in context.now regions.old slot.old).choices;
    } }
    ensures few { length applied.new.runs
        ≤ length applied.old.runs + MAX_RUNS * regions.old.cap }
    ensures one { length applied.new.choices ≤ length applied.old.choices + 1 }
    ensures cap { candidates.new.cap ≡ candidates.old.cap }
{
    slot.turn(context.tick);
    let Some(set) = slot.scheme() else {
        return;
    };
    if !set.gauge.active() {
        applied.push_choice(SlotChoice {
            slot: context.number,
            active: false,
            left: None,
            taken: 0,
            lowest: None,
        });
        return;
    }
    let left = slot.left();
    let served = ServedScheme {
        scheme: &set.scheme,
        number: context.number,
        space: context.space,
        aggr: context.aggr,
    };
    let Counts { tried, chosen } = run_scheme(&served, left, candidates, regions, applied);
    slot.count(tried, chosen.taken, chosen.exceeds);
    applied.push_choice(SlotChoice {
        slot: context.number,
        active: true,
        left,
        taken: chosen.taken,
        lowest: chosen.lowest,
    });
}

// Runs a scheme, where `left` pages are left of its quota, if it has one.
fn run_scheme(
    served: &ServedScheme,
    left: Option<u64>,
    candidates: &mut Candidates,
    regions: &mut Regions,
    applied: &mut Applied,
) -> Counts
    requires within { AreWithin served.now.space.now regions.old.ranges }
    requires aggr { 1 ≤ served.now.aggr }
    requires cap { candidates.old.cap ≡ regions.old.cap }
    requires room { length applied.old.runs + MAX_RUNS * regions.old.cap
        ≤ RUNS_PER_ROW * applied.old.cap }
    ensures runs { applied.new ≡ record applied.old {
      runs = applied.old.runs ++ (outcome_in served.now left regions.old).runs;
    } }
    ensures few { length applied.new.runs
        ≤ length applied.old.runs + MAX_RUNS * regions.old.cap }
    ensures rows { regions.new ≡ record regions.old {
      rows = (outcome_in served.now left regions.old).rows;
    } }
    ensures tried { result.tried ≡ (outcome_in served.now left regions.old).tried }
    ensures taken { result.chosen.taken
        ≡ (outcome_in served.now left regions.old).taken }
    ensures lowest { result.chosen.lowest
        ≡ (outcome_in served.now left regions.old).lowest }
    ensures exceeds { result.chosen.exceeds
        ≡ (outcome_in served.now left regions.old).exceeds }
    ensures within { IfSome left (λ most. result.chosen.taken ≤ most) }
    ensures cap { candidates.new.cap ≡ candidates.old.cap }
{
    let tried = gather(served, regions, candidates);
    let chosen = candidates.choose(left);
    let part = apply(served, candidates, regions, applied);
    cut_part(part, regions);
    Counts { tried, chosen }
}
