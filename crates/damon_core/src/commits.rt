ghost use Rattle.std.specs.Prelude.{◌≡◌, ◌^◌, ◌≤◌, ◌<◌, ◌∷◌, [], List, length, OnErr, Some, Ok, if◌then◌else◌};
ghost use Rattle.damon_types.specs.declared.row.Row.{Row as row};
ghost use Rattle.damon_types.specs.declared.scheme.CostPart.{CostPart as cost_part};
ghost use Rattle.damon_types.specs.declared.scheme.SlotChange.{SlotChange as slot_change};
ghost use Rattle.damon_types.specs.declared.scheme.TheConstants.{MAX_SLOT};
ghost use Rattle.live_commit.specs.Accepts.{steps_made};
ghost use Rattle.live_commit.specs.Commit.{commit_value};
ghost use Rattle.live_commit.specs.declared.phase.Phase.TheVariants as variant;
ghost use Rattle.damon_core.specs.Commit.{becomes_void as becomes_void_in, changed_by, check_of, commit_answer, committed_core, committed_slots, core_after_commit, slots_after_commit, view_of};
ghost use Rattle.damon_core.specs.Event.{commit as commit_event};
ghost use Rattle.damon_core.specs.Makes.{Makes};
ghost use Rattle.damon_core.specs.Stands.{Stands};
ghost use Rattle.damon_core.specs.State.{row_count};

use crate::{Changed, Monitor};
use live_commit::{Commit, CommitFault, Phase, View, validate};
use region_list::{RowBuf, same_spans};
use scheme_engine::Engine;

impl Monitor {
    /// Commits new attributes, new ranges, a change of a slot, a metric and a cost, or some of these. Returns
    /// the number of rows and whether the pass under way became void, or the first check that failed
    /// ([`validate`]); then nothing has changed.
    ///
    /// The attributes take effect first. New ranges replace those that are watched, and the rows become
    /// those of a range update; without new ranges, adjacent rows of one range are joined until there are
    /// at most `max`. A pass whose picks are cleared becomes void where the rows lie elsewhere
    /// afterwards: it is observed next, without a load, and counts nothing. Then the slot is set, with
    /// statistics of 0, or dropped; its window, what is charged to it and its cost stay. Then each set slot
    /// sees the metric. Last, the nanoseconds of the cost are added to those of its slot, set or not. Takes
    /// no memory.
    pub fn commit(&mut self, commit: &Commit) -> Result<Changed, CommitFault>
        ensures answer { result ≡ commit_answer (commit_value commit.now) self.old.core }
        ensures core { self.new.core ≡ core_after_commit (commit_value commit.now) self.old.core }
        ensures slots { self.new.slots
            ≡ slots_after_commit (commit_value commit.now) self.old.core self.old.slots }
        ensures alone { self.new ≡ record self.old { core = self.new.core; slots = self.new.slots } }
        ensures event { Makes Stands self.old self.new (commit_event (commit_value commit.now) ∷ []) }
        ensures kept { OnErr result (self.new ≡ self.old) }

        // What no commit changes.
        ensures space { self.new.core.space ≡ self.old.core.space }
        ensures cap { self.new.core.regions.cap ≡ self.old.core.regions.cap }
        ensures ticks { self.new.core.ticks ≡ self.old.core.ticks }
    {
        validate(commit, &self.space, &self.view())?;
        Ok(self.accept(commit))
    }

    // What a commit is checked against.
    fn view(&self) -> View
        ensures view { result ≡ view_of self.now.core }
        ensures few { steps_made self.now.core.phase (row_count self.now.core) < 2 ^ 32 }
    {
        let regions = self.sampling.regions();
        View {
            version: self.version,
            phase: self.sampling.phase(),
            rows: regions.len(),
            ranges: regions.ranges().len(),
            unit: regions.unit(),
            cap: regions.cap(),
            max: self.attrs.max,
        }
    }

    // Makes a commit that is accepted.
    fn accept(&mut self, commit: &Commit) -> Changed
        requires { check_of (commit_value commit.now) self.old.core ≡ Ok tt }
        ensures changed { result ≡ changed_by (commit_value commit.now) self.old.core }
        ensures committed { self.new ≡ record self.old {
          core = committed_core (commit_value commit.now) self.old.core;
          slots = committed_slots (commit_value commit.now) self.old.slots;
        } }
    {
        let attrs = commit.attrs.unwrap_or(self.attrs());
        let sampling = &mut *self.sampling;
        let void = sampling.commit(&self.space, &commit.ranges, attrs.max);
        let rows = sampling.regions().len();
        self.attrs = attrs;
        change_slots(&mut *self.engine, commit);
        Changed { rows, void }
    }
}

// Makes the slot change of a commit, and hands on its metric and its cost, if it has them. The slots are ones
// that exist.
fn change_slots(engine: &mut Engine, commit: &Commit)
    requires slot { (change : slot_change) → commit.now.slot ≡ Some change → change.slot ≤ MAX_SLOT }
    requires cost { (part : cost_part) → commit.now.cost ≡ Some part → part.slot ≤ MAX_SLOT }
    ensures { engine.new ≡ record engine.old {
      slots = committed_slots (commit_value commit.now) engine.old.slots;
    } }
{
    if let Some(change) = &commit.slot {
        engine.change(change);
    }
    if let Some(value) = commit.metric {
        engine.metric(value);
    }
    if let Some(part) = commit.cost {
        engine.cost(part.slot, part.nanos);
    }
}

// Keeps a copy of the rows where a commit may make the pass void, which is where its picks are cleared.
pub(crate) fn keep_if_armed(earlier: &mut RowBuf, phase: Phase, rows: &RowBuf)
    requires room { length rows.now.rows ≤ earlier.old.cap }
    ensures same { (new : List row) → becomes_void_in phase earlier.new.rows new
        ≡ becomes_void_in phase rows.now.rows new }
    ensures cap { earlier.new.cap ≡ earlier.old.cap }
{
    if phase == Phase::Armed {
        earlier.copy_from(rows);
    }
}

// The phase of a pass that is void, or this one.
pub(crate) fn void_or(void: bool, phase: Phase) -> Phase
    ensures { result ≡ (if void then variant.Void else phase) }
{
    if void { Phase::Void } else { phase }
}

// Whether a commit makes the pass under way void: its picks are cleared, and the new rows do not lie where
// the old ones did.
pub(crate) fn becomes_void(phase: Phase, old: &RowBuf, new: &RowBuf) -> bool
    ensures { result ≡ becomes_void_in phase old.now.rows new.now.rows }
{
    phase == Phase::Armed && !same_spans(old, new)
}
