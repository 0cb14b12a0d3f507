ghost use Rattle.std.specs.Prelude.{◌≡◌, ◌+◌, ◌*◌, ◌^◌, ◌≤◌, ◌<◌, false, [], length, count_by, option_map, replicate, slice_set, IfOk};
ghost use Rattle.std.specs.List.{AllByRecursion};
ghost use Rattle.damon_types.specs.Within.{AreWithin};
ghost use Rattle.region_list.specs.Regions.{IsRegionList};
ghost use Rattle.live_commit.specs.Accepted.{AllowsCommit};
ghost use Rattle.live_commit.specs.declared.phase.Phase.TheVariants as variant;
ghost use Rattle.sampler.specs.Counted.{raised};
ghost use Rattle.sampler.specs.Draws.{drawn, drawn_rest};
ghost use Rattle.sampler.specs.Loaded.{loaded_bits};
ghost use Rattle.sampler.specs.Pick.{picks_of};
ghost use Rattle.aggregator.specs.Aged.{aged};
ghost use Rattle.aggregator.specs.Cleared.{cleared};
ghost use Rattle.aggregator.specs.Threshold.{threshold as threshold_of};
ghost use Rattle.region_merge.specs.Merged.{merged};
ghost use Rattle.region_split.specs.Split.{split_rows};
ghost use Rattle.scheme_engine.specs.Engine.{BeginBy, FitsSlot};
ghost use Rattle.scheme_engine.specs.Served.{slots_served};
ghost use Rattle.damon_core.specs.Commit.{becomes_void as becomes_void_in, phase_after_commit, regions_after};
ghost use Rattle.damon_core.specs.Event.{IsClearing, IsLoading, clear_index, load_index};
ghost use Rattle.damon_core.specs.After.{phase_cleared};
ghost use Rattle.damon_core.specs.Kept.{CanCommit};
ghost use Rattle.damon_core.specs.Pass.{IsBetween, IsInPass, IsPickWithin};

use crate::Report;
use crate::commits::{becomes_void, keep_if_armed, void_or};
use crate::room::Room;
use aggregator::{age_all, clear_counts, threshold};
use damon_types::{RangeSpecs, Space, Version};
use live_commit::Phase;
use rand_core::Rng;
use region_list::{Regions, RowBuf};
use region_merge::merge_all;
use region_split::split_all;
use sampler::{Marks, Picks, draw_picks, set_picks};
use scheme_engine::Engine;
use std::alloc::{AllocError, Global};
use std::marker::Model;

/// What is sampled: the rows, and how far the pass under way has come, with its picks and the results of
/// their checks. There is at least one row, and a pass under way has a pick for each.
#[derive(Drop)]
pub(crate) struct Sampling {
    regions: Regions,
    phase: Phase,
    picks: Picks,
    // The hits of the pass so far, counted as they come, so that no second look at the picks is needed.
    hits_so_far: u32,
    // The number of rows at the start of the last split, 0 before the first.
    before: u32,
    // Where a commit keeps the rows that it finds. Its contents mean nothing between calls.
    earlier: RowBuf,
    room: Room,
}

impl Model for Sampling {
    ghost use Rattle.damon_core.specs.Kept.{IsSampling, SamplingView};

    ghost Value = { SamplingView };

    ghost view = { λ s. record {
      regions = s.regions;
      phase = s.phase;
      picks = s.picks.pages;
      bits = s.picks.bits;
      before = s.before;
    } };

    ghost invariant = { λ s. IsSampling s.regions s.phase s.picks s.hits_so_far s.earlier.cap s.room };
}

impl Sampling {
    // No pass is under way. There is a row.
    pub(crate) fn new(alloc: Global, regions: Regions) -> Result<Box<Sampling>, AllocError>
        requires some { 0 < length regions.rows }
        requires cap { regions.cap ≤ 4096 }
        ensures { IfOk result (λ s. s.value ≡ record {
          regions = regions;
          phase = variant.Idle;
          picks = [];
          bits = [];
          before = 0;
        }) }
    {
        let cap = regions.cap();
        let picks = Picks::new(alloc, cap)?;
        let earlier = RowBuf::new(alloc, cap)?;
        let room = Room::new(alloc, cap)?;
        let sampling = Sampling {
            regions,
            phase: Phase::Idle,
            picks,
            hits_so_far: 0,
            before: 0,
            earlier,
            room,
        };
        Ok(Box::new(alloc, sampling)?)
    }

    // Where the pass under way is. The pick that the phase names is one of the rows.
    pub(crate) fn phase(&self) -> Phase
        ensures phase { result ≡ self.now.phase }
        ensures within { IsPickWithin self.now.phase (length self.now.regions.rows) }
    {
        self.phase
    }

    // The rows, with the ranges that they tile.
    pub(crate) fn regions(&self) -> &Regions
        ensures regions { result.now ≡ self.now.regions }
        ensures some { 0 < length self.now.regions.rows }
    {
        &self.regions
    }

    // The picks of the pass that was prepared last, with the results of their checks so far. A pass under
    // way has a pick for each row.
    pub(crate) fn picks(&self) -> &Picks
        ensures pages { result.now.pages ≡ self.now.picks }
        ensures bits { result.now.bits ≡ self.now.bits }
        ensures cap { result.now.cap ≡ self.now.regions.cap }
        ensures each { IsInPass self.now.phase
            → length self.now.picks ≡ length self.now.regions.rows }
    {
        &self.picks
    }

    // Prepares a pass: picks a page of each row by the words that are given, one for each.
    pub(crate) fn prepare(&mut self, words: &[u32])
        requires { length words.now ≡ length self.old.regions.rows }
        ensures prepared { self.new ≡ record self.old {
          phase = variant.Clearing 0;
          picks = picks_of self.old.regions.rows words.now;
          bits = replicate (length self.old.regions.rows) false;
        } }
        ensures kept { IsRegionList self.old.regions }
    {
        // For its clauses alone: there are at most `cap` rows.
        let _rows = self.regions.rows();
        set_picks(&self.regions, words, &mut self.picks);
        self.hits_so_far = 0;
        self.phase = Phase::Clearing { next: 0 };
    }

    // Prepares a pass: picks a page of each row by the next random words of a source, one for each.
    pub(crate) fn prepare_from<R: Rng>(&mut self, source: &mut R)
        ensures prepared { self.new ≡ record self.old {
          phase = variant.Clearing 0;
          picks = picks_of self.old.regions.rows
              (drawn (length self.old.regions.rows) (R.stream source.old));
          bits = replicate (length self.old.regions.rows) false;
        } }
        ensures rest { R.stream source.new
            ≡ drawn_rest (length self.old.regions.rows) (R.stream source.old) }
        ensures each { length (drawn (length self.old.regions.rows) (R.stream source.old))
            ≡ length self.old.regions.rows }
        ensures kept { IsRegionList self.old.regions }
    {
        // For its clauses alone: there are at most `cap` rows.
        let _rows = self.regions.rows();
        draw_picks(&self.regions, source, &mut self.picks);
        self.hits_so_far = 0;
        self.phase = Phase::Clearing { next: 0 };
    }

    // The next `count` picks are cleared.
    pub(crate) fn clear(&mut self, count: u32)
        requires phase { IsClearing self.old.phase }
        requires within { clear_index self.old.phase + count ≤ length self.old.regions.rows }
        ensures cleared { self.new ≡ record self.old {
          phase = phase_cleared (clear_index self.old.phase + count) (length self.old.regions.rows);
        } }
        ensures some { clear_index self.old.phase < length self.old.regions.rows }
    {
        let rows = self.regions.len();
        if let Phase::Clearing { next } = self.phase {
            self.phase = phase_cleared(next + count, rows);
        }
    }

    // The next pick is loaded, with this result.
    pub(crate) fn load(&mut self, hit: bool)
        requires { IsLoading self.old.phase (length self.old.regions.rows) }
        ensures loaded { self.new ≡ record self.old {
          phase = variant.Checking (load_index self.old.phase + 1);
          bits = slice_set self.old.bits (load_index self.old.phase) hit;
        } }
        ensures each { length self.old.bits ≡ length self.old.regions.rows }
        ensures here { load_index self.old.phase < length self.old.regions.rows }
    {
        let index = next_load(self.phase);
        self.picks.set(index, hit);
        self.hits_so_far += u32::from(hit);
        self.phase = Phase::Checking { next: index + 1 };
    }

    // All picks are loaded, with these results. They are cleared, and none was loaded yet.
    pub(crate) fn load_all(&mut self, hits: &[bool])
        requires armed { self.old.phase ≡ variant.Armed }
        requires each { length hits.now ≡ length self.old.regions.rows }
        ensures loaded { self.new ≡ record self.old {
          phase = variant.Checking (length self.old.regions.rows);
          bits = hits.now;
        } }
        ensures each { length self.old.bits ≡ length self.old.regions.rows }
        ensures some { 0 < length self.old.regions.rows }
    {
        let rows = self.regions.len();
        self.hits_so_far = self.picks.set_all(hits);
        self.phase = Phase::Checking { next: rows };
    }

    // The next `count` picks are loaded, each with the mark of its page as its result.
    pub(crate) fn load_next<M: Marks + Copy>(&mut self, count: u32, marks: M)
        requires phase { IsLoading self.old.phase (length self.old.regions.rows) }
        requires within { load_index self.old.phase + count ≤ length self.old.regions.rows }
        requires marks { AllByRecursion (λ p. p < length (M.marks_of marks)) self.old.picks }
        ensures loaded { self.new ≡ record self.old {
          phase = variant.Checking (load_index self.old.phase + count);
          bits = loaded_bits (M.marks_of marks) self.old.picks (load_index self.old.phase) count
              self.old.bits;
        } }
        ensures each { length self.old.bits ≡ length self.old.regions.rows }
        ensures picks { length self.old.picks ≡ length self.old.regions.rows }
    {
        let from = next_load(self.phase);
        self.hits_so_far += self.picks.load(from, count, marks);
        self.phase = Phase::Checking { next: from + count };
    }

    // Counts the pass, of which each pick is loaded, and returns its hits; then this phase follows.
    pub(crate) fn finish(&mut self, next: Phase) -> u32
        requires phase { self.old.phase ≡ variant.Checking (length self.old.regions.rows) }
        requires next { IsBetween next }
        requires small { AllByRecursion (λ r. r.count + 1 < 2 ^ 32) self.old.regions.rows }
        ensures counted { self.new ≡ record self.old {
          regions = record self.old.regions {
            rows = raised self.old.bits self.old.regions.rows;
          };
          phase = next;
        } }
        ensures hits { result ≡ count_by (λ hit. hit) self.old.bits }
        ensures each { length self.old.bits ≡ length self.old.regions.rows }
    {
        sampler::observe(&mut self.regions, &self.picks);
        self.phase = next;
        self.hits_so_far
    }

    // Ends a pass that counts nothing; then this phase follows.
    pub(crate) fn leave(&mut self, next: Phase)
        requires { IsBetween next }
        ensures { self.new ≡ record self.old { phase = next } }
    {
        self.phase = next;
    }

    // Ages the rows and merges those that are about the same; merged rows have at most `limit` pages.
    // Returns the threshold of both. No pass is under way.
    #[tactic(auto, using(aggregator::proofs::Lemmas::length_aged, region_merge::proofs::Lemmas::some_merged))]
    pub(crate) fn merge(&mut self, limit: u32, version: Version) -> u32
        requires { IsBetween self.old.phase }
        ensures threshold { result ≡ threshold_of self.old.regions.rows }
        ensures merged { self.new ≡ record self.old {
          regions = record self.old.regions {
            rows = merged self.old.regions.ranges result limit
                (aged result version self.old.regions.rows);
          };
        } }
    {
        let threshold = threshold(&self.regions);
        age_all(&mut self.regions, threshold, version);
        merge_all(&mut self.regions, threshold, limit);
        threshold
    }

    // Serves the slots of an engine over the rows, at the end of an aggregation of `aggr` passes at a tick.
    // The report keeps what they were applied to. No pass is under way.
    #[tactic(auto, using(scheme_engine::proofs::Lemmas::slots_some))]
    pub(crate) fn serve(
        &mut self,
        engine: &mut Engine,
        report: &mut Report,
        space: &Space,
        aggr: u32,
        tick: u64,
    )
        requires phase { IsBetween self.old.phase }
        requires within { AreWithin space.now self.old.regions.ranges }
        requires aggr { 1 ≤ aggr }
        requires engine { self.old.regions.cap ≡ engine.old.cap }
        requires room { self.old.regions.cap ≡ report.old.applied.cap }
        requires windows { BeginBy tick engine.old.slots }
        requires fits { AllByRecursion FitsSlot
            (slots_served 0 space.now aggr tick self.old.regions engine.old.slots).slots }
        ensures rows { self.new ≡ record self.old {
          regions = record self.old.regions {
            rows = (slots_served 0 space.now aggr tick self.old.regions engine.old.slots).rows;
          };
        } }
        ensures slots { engine.new ≡ record engine.old {
          slots = (slots_served 0 space.now aggr tick self.old.regions engine.old.slots).slots;
        } }
        ensures applied { report.new ≡ record report.old {
          applied = record report.old.applied {
            runs = (slots_served 0 space.now aggr tick self.old.regions engine.old.slots).runs;
            choices = (slots_served 0 space.now aggr tick self.old.regions engine.old.slots).choices;
          };
        } }
    {
        report.serve(engine, &mut self.regions, space, aggr, tick);
    }

    // Clears the counts and splits the rows, row i by the words 2i and 2i + 1. No pass is under way, and
    // the next one may be prepared.
    #[tactic(auto, using(crate::proofs::Adapting::rows_split))]
    pub(crate) fn split(&mut self, words: &[u32])
        requires phase { IsBetween self.old.phase }
        requires words { 2 * length self.old.regions.rows ≤ length words.now }
        ensures split { self.new ≡ record self.old {
          regions = record self.old.regions {
            rows = split_rows self.old.regions.max self.old.regions.unit self.old.before words.now
                (cleared self.old.regions.rows);
          };
          phase = variant.Idle;
          before = length self.old.regions.rows;
        } }
        ensures counts { AllByRecursion (λ r. r.count ≤ 0) self.new.regions.rows }
    {
        let before = self.regions.len();
        clear_counts(&mut self.regions);
        split_all(&mut self.regions, words, self.before);
        self.before = before;
        self.phase = Phase::Idle;
    }

    // Commits new ranges, if there are any, and another maximum, for a commit that is accepted. The pass
    // under way becomes void where its picks are cleared and the rows lie elsewhere afterwards. Returns
    // whether it does.
    pub(crate) fn commit(&mut self, space: &Space, specs: &Option<RangeSpecs>, max: u32) -> bool
        requires phase { AllowsCommit self.old.phase }
        requires can { CanCommit space.now self.old.regions (option_map (λ l. l.list) specs.now) max }
        ensures committed { self.new ≡ record self.old {
          regions = regions_after space.now (option_map (λ l. l.list) specs.now) max self.old.regions;
          phase = phase_after_commit self.old.phase self.old.regions.rows
              (regions_after space.now (option_map (λ l. l.list) specs.now) max self.old.regions).rows;
        } }
        ensures void { result
            ≡ becomes_void_in self.old.phase self.old.regions.rows self.new.regions.rows }
        ensures within { AreWithin space.now self.old.regions.ranges
            → AreWithin space.now self.new.regions.ranges }
    {
        // For their clauses alone: there are at most `cap` rows, and the space is within its limits.
        let (_rows, _targets) = (self.regions.len(), space.targets());
        keep_if_armed(&mut self.earlier, self.phase, self.regions.rows());
        self.room.change(&mut self.regions, space, specs, max);
        let void = becomes_void(self.phase, &self.earlier, self.regions.rows());
        self.phase = void_or(void, self.phase);
        void
    }
}

// The phase once this many of the picks are cleared.
fn phase_cleared(cleared: u32, rows: u32) -> Phase
    ensures { result ≡ phase_cleared cleared rows }
{
    if cleared == rows {
        Phase::Armed
    } else {
        Phase::Clearing { next: cleared }
    }
}

// The pick that is loaded next.
fn next_load(phase: Phase) -> u32
    ensures { result ≡ load_index phase }
{
    match phase {
        Phase::Checking { next } => next,
        _ => 0,
    }
}
