ghost use Rattle.std.specs.List.{AllByRecursion};
ghost use Rattle.std.specs.Prelude.{◌≡◌, ◌+◌, ◌*◌, ◌≤◌, ◌<◌, ℕ, false, true, max, ◌/◌, [], ◌∷◌, length, map, replicate, slice_get, slice_index, slice_set, IfOk, Some, Ok};
ghost use Rattle.damon_types.specs.Ranges.{page_total};
ghost use Rattle.damon_types.specs.Space.{pages_of};
ghost use Rattle.live_commit.specs.SetupView.{value_of};
ghost use Rattle.damon_core.specs.Note.{is_cleared};
ghost use Rattle.damon_core.specs.State.{State, opening, opening_core, row_count};
ghost use Rattle.damon_core.specs.Event.{IsClearing, IsLoading, clear_index, load_index, prepare as prepare_event, clear as clear_event, load as load_event, aggregate as aggregate_event};
ghost use Rattle.damon_core.specs.Aggregate.{core_after_aggregation, engine_served, merged_regions};
ghost use Rattle.damon_core.specs.Report.{report_value};
ghost use Rattle.damon_core.specs.Several.{clears, loads};
ghost use Rattle.damon_core.specs.After.{prepared_core, cleared_core, loaded_core};
ghost use Rattle.damon_core.specs.Reached.{Reached, ReachedByHit};
ghost use Rattle.damon_core.specs.Pass.{IsInPass, IsPickWithin, cleared_so_far};
ghost use Rattle.damon_core.specs.Makes.{Makes};
ghost use Rattle.damon_core.specs.Stands.{Stands};
ghost use Rattle.scheme_engine.specs.Best.{AreServedBest};
ghost use Rattle.sampler.specs.Draws.{drawn, drawn_rest};
ghost use Rattle.sampler.specs.Loaded.{loaded_bits, next_picks};

use crate::Report;
use crate::clock::Clock;
use crate::sampling::Sampling;
use crate::start::{first_engine, first_regions, opening_is_reached};
use crate::totals::Totals;
use damon_types::{Attrs, Space, Version};
use live_commit::{Phase, Setup};
use rand_core::Rng;
use region_list::Regions;
use sampler::{Marks, Picks};
use scheme_engine::Engine;
use std::alloc::{AllocError, Global};
use std::marker::Model;

/// A monitor of regions. Each call that changes it is one event of the state machine: in each state
/// for which the monitor stands the event fits, and afterwards it stands for the state after it. The
/// results of the loads are handed in. Time is counted in passes (ticks).
#[derive(Drop)]
pub struct Monitor {
    pub(crate) version: Version,
    pub(crate) space: Space,
    pub(crate) attrs: Attrs,
    // The large parts are in boxes, so that a monitor is cheap to move, and to hand on in a `Result`.
    pub(crate) sampling: Box<Sampling>,
    pub(crate) clock: Clock,
    pub(crate) totals: Totals,
    pub(crate) report: Box<Report>,
    pub(crate) engine: Box<Engine>,
}

impl Model for Monitor {
    ghost use Rattle.damon_core.specs.Stands.{MonitorView};

    ghost Value = { MonitorView };

    ghost use Rattle.damon_core.specs.Kept.{IsMonitor};
    ghost use Rattle.damon_core.specs.Report.{report_value};

    ghost view = { λ m. record {
      core = record {
        version = m.version;
        space = m.space;
        attrs = m.attrs;
        regions = m.sampling.value.regions;
        phase = m.sampling.value.phase;
        picks = m.sampling.value.picks;
        ticks = m.clock.ticks;
        since = m.clock.since;
        before = m.sampling.value.before;
        report = report_value m.report.value;
      };
      bits = m.sampling.value.bits;
      checks = m.totals.checks;
      hits = m.totals.hits;
      slots = m.engine.value.slots;
    } };

    ghost invariant = { λ m. IsMonitor m.space m.attrs m.sampling.value m.clock m.totals m.report.value
        m.engine.value };
}

impl Monitor {
    /// A monitor before its first pass. Its rows are the division of the setup's ranges, of which
    /// adjacent ones are joined until there are at most `max`. The slots of the setup are set. Takes
    /// memory; no other call does.
    pub fn new(alloc: Global, setup: &Setup) -> Result<Monitor, AllocError>
        ensures core { IfOk result (λ m. m.core ≡ opening_core (value_of setup.now)) }
        ensures opening { IfOk result (λ m. Stands m (opening (value_of setup.now))) }
        ensures reached { IfOk result (λ m. Reached (opening (value_of setup.now))) }
        ensures by_hit { IfOk result (λ m. ReachedByHit (opening (value_of setup.now))) }
    {
        opening_is_reached(setup);
        let regions = first_regions(alloc, setup)?;
        let sampling = Sampling::new(alloc, regions)?;
        let space = setup.space.clone()?;
        let report = Report::new(alloc, setup.cap)?;
        let engine = first_engine(alloc, setup)?;
        Ok(Monitor {
            version: setup.version,
            space,
            attrs: setup.attrs,
            sampling,
            clock: Clock { ticks: 0, since: 0 },
            totals: Totals { checks: 0, hits: 0 },
            report,
            engine,
        })
    }

    /// Where the monitor is in its pass. The pick that a phase names is one of the rows.
    pub fn phase(&self) -> Phase
        ensures phase { result ≡ self.now.core.phase }
        ensures within { IsPickWithin self.now.core.phase (row_count self.now.core) }
    {
        self.sampling.phase()
    }

    /// The passes that have ended, void ones among them.
    pub fn ticks(&self) -> u64
        ensures { result ≡ self.now.core.ticks }
    {
        self.clock.ticks
    }

    /// The space: all targets, by whose pages everything is numbered.
    pub fn space(&self) -> &Space
        ensures { result.now ≡ self.now.core.space }
    {
        &self.space
    }

    /// The attributes in force, whose `max` is at most the `cap` of the regions.
    pub fn attrs(&self) -> Attrs
        ensures attrs { result ≡ self.now.core.attrs }
        ensures max { self.now.core.attrs.max ≤ self.now.core.regions.cap }
        ensures limit { self.now.core.regions.max ≡ self.now.core.attrs.max }
    {
        // For its clauses alone: at most `cap` rows are allowed.
        let _rows = self.sampling.regions().len();
        self.attrs
    }

    /// The rows, with the ranges that they tile. Each has a page, and its pages are pages of the space.
    pub fn rows(&self) -> &Regions
        ensures rows { result.now ≡ self.now.core.regions }
        ensures in_space { AllByRecursion
            (λ r. (1 ≤ r.pages) × (r.start + r.pages ≤ pages_of self.now.core.space))
            self.now.core.regions.rows }
        ensures some { 0 < row_count self.now.core }
    {
        let regions = self.sampling.regions();
        // For its clauses alone: the rows tile their ranges and are within their limits.
        let _rows = regions.len();
        regions
    }

    /// What the last aggregation reported. Each of its rows, and each run that a scheme was applied to,
    /// has a page, and its pages are pages of the space.
    pub fn report(&self) -> &Report
        ensures report { report_value result.now ≡ self.now.core.report }
        ensures room { result.now.rows.cap ≡ self.now.core.regions.cap }
        ensures applied { result.now.applied.cap ≡ self.now.core.regions.cap }
        ensures in_space { AllByRecursion
            (λ r. (1 ≤ r.pages) × (r.start + r.pages ≤ pages_of self.now.core.space))
            self.now.core.report.rows }
        ensures runs_in_space { AllByRecursion
            (λ r. (1 ≤ r.pages) × (r.start + r.pages ≤ pages_of self.now.core.space))
            self.now.core.report.runs }
    {
        &self.report
    }

    /// The slots that hold schemes.
    pub fn engine(&self) -> &Engine
        ensures slots { result.now.slots ≡ self.now.slots }
        ensures cap { result.now.cap ≡ self.now.core.regions.cap }
    {
        &self.engine
    }

    /// The loads of all finished passes.
    pub fn checks(&self) -> u64
        ensures { result ≡ self.now.checks }
    {
        self.totals.checks
    }

    /// The loads of all finished passes that were hits, each of which raised a count by 1.
    pub fn hits(&self) -> u64
        ensures { result ≡ self.now.hits }
    {
        self.totals.hits
    }

    /// The picks of the pass that was prepared last, with the results of their loads so far; empty before
    /// the first pass.
    pub fn picks(&self) -> &Picks
        ensures pages { result.now.pages ≡ self.now.core.picks }
        ensures bits { result.now.bits ≡ self.now.bits }
        ensures cap { result.now.cap ≡ self.now.core.regions.cap }

        // A pass under way has a pick for each row, which is a page of the space.
        ensures each { IsInPass self.now.core.phase
            → length self.now.core.picks ≡ row_count self.now.core }
        ensures inside { IsInPass self.now.core.phase
            → (k : ℕ) → k < row_count self.now.core
            → slice_index self.now.core.picks k < pages_of self.now.core.space }
        ensures cleared { (s : State) → Reached s → Stands self.now s
            → (k : ℕ) → k < cleared_so_far self.now.core.phase (row_count self.now.core)
            → is_cleared s.notes (slice_index self.now.core.picks k) ≡ true }
    {
        self.sampling.picks()
    }

    /// Prepares a pass: picks a page of each row by the words that are given, one for each. No pass is under
    /// way and no aggregation is due.
    pub fn prepare(&mut self, words: &[u32])
        requires idle { self.old.core.phase ≡ Phase.Idle }
        requires words { length words.now ≡ row_count self.old.core }
        ensures core { self.new.core ≡ prepared_core words.now self.old.core }
        ensures bits { self.new.bits ≡ replicate (row_count self.old.core) false }
        ensures alone { self.new ≡ record self.old { core = self.new.core; bits = self.new.bits } }
        ensures event { Makes Stands self.old self.new (prepare_event words.now ∷ []) }
    {
        self.sampling.prepare(words);
    }

    /// Prepares a pass as [`Monitor::prepare`] does, by the next random words of a source. They are drawn as
    /// the pages are picked, which is faster than a list of them.
    pub fn prepare_from<R: Rng>(&mut self, source: &mut R)
        requires { self.old.core.phase ≡ Phase.Idle }
        ensures core { self.new.core
            ≡ prepared_core (drawn (row_count self.old.core) (R.stream source.old)) self.old.core }
        ensures bits { self.new.bits ≡ replicate (row_count self.old.core) false }
        ensures alone { self.new ≡ record self.old { core = self.new.core; bits = self.new.bits } }
        ensures event { Makes Stands self.old self.new
            (prepare_event (drawn (row_count self.old.core) (R.stream source.old)) ∷ []) }
        ensures rest { R.stream source.new
            ≡ drawn_rest (row_count self.old.core) (R.stream source.old) }
        ensures each { length (drawn (row_count self.old.core) (R.stream source.old))
            ≡ row_count self.old.core }
    {
        self.sampling.prepare_from(source);
    }

    /// The page of pick `k`, one for each row, of the pass under way.
    pub fn pick(&self, k: u32) -> u32
        requires pass { IsInPass self.now.core.phase }
        requires within { k < row_count self.now.core }
        ensures page { slice_get self.now.core.picks k ≡ Some result }
        ensures inside { result < pages_of self.now.core.space }
        ensures cleared { (s : State) → Reached s → Stands self.now s
            → k < cleared_so_far self.now.core.phase (row_count self.now.core)
            → is_cleared s.notes result ≡ true }
    {
        self.sampling.picks().page(k)
    }

    /// Records that the page of the next pick was cleared. The phase is Clearing.
    pub fn cleared(&mut self)
        requires { IsClearing self.old.core.phase }
        ensures core { self.new.core ≡ cleared_core 1 self.old.core }
        ensures alone { self.new ≡ record self.old { core = self.new.core } }
        ensures event { Makes Stands self.old self.new (clear_event ∷ []) }
    {
        // For its clauses alone: the next pick is that of a row.
        let _phase = self.sampling.phase();
        self.sampling.clear(1);
    }

    /// Records that the pages of the next `count` picks were cleared. The phase is Clearing, and at
    /// least `count` picks are left to clear.
    pub fn cleared_next(&mut self, count: u32)
        requires phase { IsClearing self.old.core.phase }
        requires within { clear_index self.old.core.phase + count ≤ row_count self.old.core }
        ensures core { self.new.core ≡ cleared_core count self.old.core }
        ensures alone { self.new ≡ record self.old { core = self.new.core } }
        ensures events { Makes Stands self.old self.new (clears count) }
    {
        self.sampling.clear(count);
    }

    /// Records that the page of the next pick was loaded, with this result. The phase is Armed, or
    /// Checking with a pick that is left to load.
    pub fn loaded(&mut self, hit: bool)
        requires { IsLoading self.old.core.phase (row_count self.old.core) }
        ensures core { self.new.core ≡ loaded_core 1 self.old.core }
        ensures bits { self.new.bits
            ≡ slice_set self.old.bits (load_index self.old.core.phase) hit }
        ensures alone { self.new ≡ record self.old { core = self.new.core; bits = self.new.bits } }
        ensures event { Makes Stands self.old self.new (load_event hit ∷ []) }
    {
        self.sampling.load(hit);
    }

    /// Records that the pages of all picks were loaded, with these results, one for each. The phase is
    /// Armed.
    pub fn loaded_all(&mut self, hits: &[bool])
        requires armed { self.old.core.phase ≡ Phase.Armed }
        requires each { length hits.now ≡ row_count self.old.core }
        ensures core { self.new.core ≡ loaded_core (row_count self.old.core) self.old.core }
        ensures bits { self.new.bits ≡ hits.now }
        ensures alone { self.new ≡ record self.old { core = self.new.core; bits = self.new.bits } }
        ensures events { Makes Stands self.old self.new (map (λ hit. load_event hit) hits.now) }
    {
        self.sampling.load_all(hits);
    }

    /// Records that the pages of the next `count` picks (at least 1) were loaded, each with the mark
    /// of its page as its result. At least `count` picks are left to load, and there is a mark for each
    /// page of the space.
    pub fn loaded_next<M: Marks + Copy>(&mut self, count: u32, marks: M)
        requires phase { IsLoading self.old.core.phase (row_count self.old.core) }
        requires some { 1 ≤ count }
        requires within { load_index self.old.core.phase + count ≤ row_count self.old.core }
        requires marks { length (M.marks_of marks) ≡ pages_of self.old.core.space }
        ensures core { self.new.core ≡ loaded_core count self.old.core }
        ensures bits { self.new.bits
            ≡ loaded_bits (M.marks_of marks) self.old.core.picks (load_index self.old.core.phase) count
            self.old.bits }
        ensures alone { self.new ≡ record self.old { core = self.new.core; bits = self.new.bits } }
        ensures events { Makes Stands self.old self.new
            (loads (M.marks_of marks)
            (next_picks self.old.core.picks (load_index self.old.core.phase) count)) }
    {
        self.sampling.load_next(count, marks);
    }

    /// Carries out the aggregation that is due: ages the rows, merges those that are about the same,
    /// serves the slots of schemes in order, keeps the report, clears the counts, and splits the rows at
    /// random places, row i by the words 2i and 2i + 1. There are `2 × max` words.
    pub fn aggregate(&mut self, words: &[u32])
        requires due { self.old.core.phase ≡ Phase.Due }
        requires words { length words.now ≡ 2 * self.old.core.attrs.max }
        ensures core { self.new.core ≡ core_after_aggregation words.now self.old.slots self.old.core }
        ensures slots { self.new.slots ≡ (engine_served self.old.core self.old.slots).slots }
        ensures alone { self.new ≡ record self.old { core = self.new.core; slots = self.new.slots } }
        ensures best { AreServedBest 0 self.old.core.space self.old.core.attrs.aggr self.old.core.ticks
            (merged_regions self.old.core) self.old.slots }
        ensures event { Makes Stands self.old self.new (aggregate_event words.now ∷ []) }
    {
        let sampling = &mut *self.sampling;
        let limit = merge_limit(sampling.regions(), self.attrs.min);
        let threshold = sampling.merge(limit, self.version);
        // For their clauses alone: the rows are tiled, and the space is within its limits.
        let (_merged, _targets) = (sampling.regions().len(), self.space.targets());
        let (aggr, tick) = (self.attrs.aggr, self.clock.ticks);
        let engine = &mut *self.engine;
        let report = &mut *self.report;
        sampling.serve(engine, report, &self.space, aggr, tick);
        let rows = sampling.regions();
        report.set(tick, threshold, rows.rows());
        sampling.split(words);
        self.clock.since = 0;
    }
}

// The most pages of a merged row.
fn merge_limit(regions: &Regions, min: u32) -> u32
    requires { 1 ≤ min }
    ensures { result ≡ max regions.now.unit (page_total regions.now.ranges / min) }
{
    (regions.ranges().total() / min).max(regions.unit())
}
