ghost use Rattle.std.specs.Prelude.{◌≡◌, ◌↔◌, ◌+◌, ◌-◌, ◌*◌, ◌/◌, ◌^◌, ◌≤◌, ◌<◌, true, [], ◌∷◌, min, length, ◌++◌, IfOk, OnErr, slice_index, vec_capacity, vec_len};
ghost use Rattle.damon_types.specs.Space.{pages_of};
ghost use Rattle.live_commit.specs.Commit.{commit_value};
ghost use Rattle.live_commit.specs.SetupView.{value_of};
ghost use Rattle.damon_core.specs.Commit.{commit_answer, core_after_commit};
ghost use Rattle.damon_core.specs.State.{State, opening, opening_core, opening_notes, row_count};
ghost use Rattle.damon_core.specs.Event.{IsLoading, IsObserving, load_index, commit as commit_event, touch as touch_event};
ghost use Rattle.damon_core.specs.Makes.{Makes, MakesByHit};
ghost use Rattle.damon_core.specs.Note.{last_clear};
ghost use Rattle.damon_core.specs.Pass.{IsInPass};
ghost use Rattle.damon_core.specs.Reached.{Reached, ReachedByHit};
ghost use Rattle.sampler.specs.Draws.{drawn, drawn_rest};
ghost use Rattle.damon_world.specs.Pages.{ArePagesOf, AreCleared};
ghost use Rattle.damon_world.specs.Stands.{KeepsTags, StandsAt, StandsFor};
ghost use Rattle.damon_world.specs.Touches.{touches};
ghost use Rattle.damon_world.specs.Advance.{AreAmid, steps_of_kind};
ghost use Rattle.damon_world.specs.Moment.{Moment, Tells, events_of_steps, next_event};
ghost use Rattle.damon_world.specs.Plays.{Plays, PlaysByHit};
ghost use Rattle.damon_world.specs.Kept.{IsAdvance};

use crate::{Jump, PlainPages, draw_all};
use damon_core::{Changed, Monitor};
use live_commit::{Commit, CommitFault, Phase, Setup};
use rand_core::Rng;
use sampler::Marks;
use std::alloc::{AllocError, Global};
use std::marker::Model;

/// What a step did.
#[derive(Clone, Copy, Debug, PartialEq, Eq)]
pub enum Stepped {
    /// A pass was prepared.
    Prepared,
    /// The accessed mark of the page was cleared.
    Cleared { page: u32 },
    /// The accessed mark of the page was checked: it was accessed since its clear, or not.
    Loaded { page: u32, hit: bool },
    /// The pass was observed, as a void one or not.
    Observed { void: bool },
    /// An aggregation was carried out.
    Aggregated,
}

/// A monitor with the pages of one thread.
#[derive(Drop)]
pub struct World<R: Rng> {
    monitor: Monitor,
    pages: PlainPages,
    // The random words of an aggregation; the room for them is taken once.
    drawn: Vec<u32>,
    source: R,
}

impl<R: Rng> Model for World<R> {
    ghost use Rattle.damon_world.specs.Stands.{WorldView};

    ghost Value = { WorldView R };

    ghost use Rattle.std.specs.Prelude.{vec_capacity};
    ghost use Rattle.damon_world.specs.Kept.{IsWorld};

    ghost view = { λ w. record { monitor = w.monitor; pages = w.pages; source = w.source } };

    ghost invariant = { λ w. IsWorld w.monitor w.pages (vec_capacity w.drawn) };
}

impl<R: Jump + Drop> World<R> {
    /// A world before its first event, which keeps the tags of its pages: no page was touched. `words` is the
    /// source of its random words. Takes memory, as [`World::without_tags`] does; no other call does.
    pub fn new(alloc: Global, setup: &Setup, words: R) -> Result<World<R>, AllocError>
        ensures core { IfOk result (λ w. w.monitor.core ≡ opening_core (value_of setup.now)) }
        ensures source { IfOk result (λ w. w.source ≡ words) }
        ensures opening { IfOk result (λ w. StandsFor w (opening (value_of setup.now))) }
        ensures reached { IfOk result (λ w. ReachedByHit (opening (value_of setup.now))) }
        ensures tags { IfOk result (λ w. KeepsTags w) }
    {
        let pages = PlainPages::new(alloc, setup.space.pages())?;
        World::with_pages(alloc, setup, pages, words)
    }

    /// The same without tags, so that [`World::touch`] may not be called.
    pub fn without_tags(alloc: Global, setup: &Setup, words: R) -> Result<World<R>, AllocError>
        ensures core { IfOk result (λ w. w.monitor.core ≡ opening_core (value_of setup.now)) }
        ensures source { IfOk result (λ w. w.source ≡ words) }
        ensures opening { IfOk result (λ w. StandsFor w (opening (value_of setup.now))) }
        ensures reached { IfOk result (λ w. ReachedByHit (opening (value_of setup.now))) }
    {
        let pages = PlainPages::without_tags(alloc, setup.space.pages())?;
        World::with_pages(alloc, setup, pages, words)
    }

    // The same with these pages, none of which was touched or cleared.
    fn with_pages(
        alloc: Global,
        setup: &Setup,
        pages: PlainPages,
        words: R,
    ) -> Result<World<R>, AllocError>
        requires each { length pages.marks ≡ pages_of setup.now.space }
        requires fresh { ArePagesOf pages (opening_notes (value_of setup.now))
            (pages_of setup.now.space) }
        ensures core { IfOk result (λ w. w.monitor.core ≡ opening_core (value_of setup.now)) }
        ensures pages { IfOk result (λ w. w.pages ≡ pages) }
        ensures source { IfOk result (λ w. w.source ≡ words) }
        ensures opening { IfOk result (λ w. StandsFor w (opening (value_of setup.now))) }
        ensures reached { IfOk result (λ w. ReachedByHit (opening (value_of setup.now))) }
    {
        let monitor = Monitor::new(alloc, setup)?;
        let drawn = Vec::with_capacity(alloc, 2 * setup.cap as usize)?;
        Ok(World {
            monitor,
            pages,
            drawn,
            source: words,
        })
    }

    /// The monitor.
    pub fn monitor(&self) -> &Monitor
        ensures { result.now ≡ self.now.monitor }
    {
        &self.monitor
    }

    /// Whether the world keeps the tag of each page, so that [`World::touch`] may be called.
    pub fn keeps_tags(&self) -> bool
        ensures { (result ≡ true) ↔ KeepsTags self.now }
    {
        self.pages.tag_count() == self.monitor.space().pages() as usize
    }

    /// Touches a page of the space, and returns its tag: the pass that cleared it last, 0 if none did. The
    /// world keeps tags ([`World::keeps_tags`]).
    pub fn touch(&mut self, page: u32) -> u64
        requires page { page < pages_of self.old.monitor.core.space }
        requires tags { KeepsTags self.old }
        ensures tag { result ≡ slice_index self.old.pages.tags page }
        ensures noted { (s : State) → StandsFor self.old s → result ≡ last_clear s.notes page }
        ensures monitor { self.new.monitor ≡ self.old.monitor }
        ensures source { self.new.source ≡ self.old.source }
        ensures event { Makes StandsFor self.old self.new (touch_event page ∷ []) }
        ensures by_hit { MakesByHit StandsFor self.old self.new (touch_event page ∷ []) }
        ensures tags { length self.new.pages.tags ≡ length self.old.pages.tags }
    {
        let tag = self.pages.tag(page);
        self.touch_page(page);
        tag
    }

    /// Touches a page of the space.
    pub fn touch_page(&mut self, page: u32)
        requires { page < pages_of self.old.monitor.core.space }
        ensures monitor { self.new.monitor ≡ self.old.monitor }
        ensures source { self.new.source ≡ self.old.source }
        ensures event { Makes StandsFor self.old self.new (touch_event page ∷ []) }
        ensures by_hit { MakesByHit StandsFor self.old self.new (touch_event page ∷ []) }
        ensures tags { length self.new.pages.tags ≡ length self.old.pages.tags }
    {
        self.pages.touch(page);
    }

    /// Touches the pages of the space from `from` to before `to`, in ascending order.
    pub fn sweep(&mut self, from: u32, to: u32)
        requires order { from ≤ to }
        requires within { to ≤ pages_of self.old.monitor.core.space }
        ensures monitor { self.new.monitor ≡ self.old.monitor }
        ensures source { self.new.source ≡ self.old.source }
        ensures events { Makes StandsFor self.old self.new (touches from (to - from)) }
        ensures by_hit { MakesByHit StandsFor self.old self.new (touches from (to - from)) }
        ensures tags { length self.new.pages.tags ≡ length self.old.pages.tags }
    {
        self.pages.sweep(from, to);
    }

    /// Commits new attributes, new ranges, a slot change, a metric or a cost, as [`Monitor::commit`] does:
    /// returns what that did, or the first check that failed; then nothing has changed. No page is touched
    /// or cleared, and no random word is drawn.
    pub fn commit(&mut self, commit: &Commit) -> Result<Changed, CommitFault>
        ensures answer { result ≡ commit_answer (commit_value commit.now) self.old.monitor.core }
        ensures core { self.new.monitor.core
            ≡ core_after_commit (commit_value commit.now) self.old.monitor.core }
        ensures source { self.new.source ≡ self.old.source }
        ensures pages { self.new.pages ≡ self.old.pages }
        ensures kept { OnErr result (self.new ≡ self.old) }
        ensures event { Makes StandsFor self.old self.new (commit_event (commit_value commit.now) ∷ []) }
        ensures by_hit { MakesByHit StandsFor self.old self.new
            (commit_event (commit_value commit.now) ∷ []) }

        // What no commit changes.
        ensures space { self.new.monitor.core.space ≡ self.old.monitor.core.space }
        ensures cap { self.new.monitor.core.regions.cap ≡ self.old.monitor.core.regions.cap }
        ensures ticks { self.new.monitor.core.ticks ≡ self.old.monitor.core.ticks }
        ensures tags { length self.new.pages.tags ≡ length self.old.pages.tags }
    {
        self.monitor.commit(commit)
    }

    /// Carries out the monitor's next step, and returns what it did. The passes in all are below 2^40.
    pub fn step(&mut self) -> Stepped
        requires { self.old.monitor.core.ticks < 2 ^ 40 }
        ensures plays { Plays R.stream self.old self.new (λ m. next_event m.state m.stream ∷ []) }
        ensures by_hit { PlaysByHit R.stream self.old self.new (λ m. next_event m.state m.stream ∷ []) }
        ensures told { (s : State) → Reached s → StandsFor self.old s
            → Tells s.core.phase s result }

        // What a caller needs for the next step.
        ensures passes { self.new.monitor.core.ticks ≤ self.old.monitor.core.ticks + 1 }
        ensures space { self.new.monitor.core.space ≡ self.old.monitor.core.space }
        ensures cap { self.new.monitor.core.regions.cap ≡ self.old.monitor.core.regions.cap }
        ensures tags { length self.new.pages.tags ≡ length self.old.pages.tags }
    {
        let stepped = self.next_step();
        self.advance(1);
        stepped
    }

    /// Carries out up to `most` (at least 1) of the monitor's next steps, as long as they are of one
    /// kind, and returns how many. The passes in all are below 2^40.
    pub fn advance(&mut self, most: u64) -> u64
        requires some { 1 ≤ most }
        requires ticks { self.old.monitor.core.ticks < 2 ^ 40 }
        ensures count { result
            ≡ min most
            (steps_of_kind self.old.monitor.core.phase (row_count self.old.monitor.core)) }
        ensures some { 1 ≤ result }
        ensures plays { Plays R.stream self.old self.new (λ m. events_of_steps result m) }
        ensures by_hit { PlaysByHit R.stream self.old self.new (λ m. events_of_steps result m) }
        ensures amid { (m : Moment) → Reached m.state → StandsAt R.stream self.old m
            → AreAmid result m }

        // What a caller needs for the next steps.
        ensures passes { self.new.monitor.core.ticks ≤ self.old.monitor.core.ticks + 1 }
        ensures space { self.new.monitor.core.space ≡ self.old.monitor.core.space }
        ensures cap { self.new.monitor.core.regions.cap ≡ self.old.monitor.core.regions.cap }
        ensures tags { length self.new.pages.tags ≡ length self.old.pages.tags }
    {
        match self.monitor.phase() {
            Phase::Idle => self.prepare(),
            Phase::Clearing { next } => self.clear_picks(next, most),
            Phase::Armed => self.load_picks(0, most),
            Phase::Checking { next } if next < self.monitor.rows().len() => self.load_picks(
                next, most,
            ),
            Phase::Due => self.aggregate(),
            _ => self.observe(),
        }
    }

    // What the next step does.
    fn next_step(&self) -> Stepped
        ensures { (s : State) → Reached s → StandsFor self.now s → Tells s.core.phase s result }
    {
        let rows = self.monitor.rows().len();
        match self.monitor.phase() {
            Phase::Idle => Stepped::Prepared,
            Phase::Clearing { next } => Stepped::Cleared {
                page: self.monitor.pick(next),
            },
            Phase::Armed => self.next_load(0),
            Phase::Checking { next } if next < rows => self.next_load(next),
            Phase::Checking { .. } => Stepped::Observed { void: false },
            Phase::Void => Stepped::Observed { void: true },
            Phase::Due => Stepped::Aggregated,
        }
    }

    // What the load of pick `next` will do.
    fn next_load(&self, next: u32) -> Stepped
        requires phase { IsLoading self.now.monitor.core.phase (row_count self.now.monitor.core) }
        requires index { next ≡ load_index self.now.monitor.core.phase }
        requires within { next < row_count self.now.monitor.core }
        ensures { (s : State) → Reached s → StandsFor self.now s → Tells s.core.phase s result }
    {
        let page = self.monitor.pick(next);
        let hit = self.pages.is_marked(page);
        Stepped::Loaded { page, hit }
    }

    // Prepares a pass by the next random words, which is one step.
    fn prepare(&mut self) -> u64
        requires { self.old.monitor.core.phase ≡ Phase.Idle }
        ensures one { result ≡ 1 }
        ensures advance { IsAdvance R.stream self.old self.new 1 }
    {
        self.monitor.prepare_from(&mut self.source);
        1
    }

    // Carries out an aggregation with the next random words, which is one step.
    fn aggregate(&mut self) -> u64
        requires { self.old.monitor.core.phase ≡ Phase.Due }
        ensures one { result ≡ 1 }
        ensures advance { IsAdvance R.stream self.old self.new 1 }
    {
        let attrs = self.monitor.attrs();
        draw_all(&mut self.source, 2 * attrs.max as usize, &mut self.drawn);
        self.monitor.aggregate(&self.drawn);
        1
    }

    // Clears the pages of at most `most` picks that begin with pick `next`, and returns how many.
    fn clear_picks(&mut self, next: u32, most: u64) -> u64
        requires some { 1 ≤ most }
        requires phase { self.old.monitor.core.phase ≡ Phase.Clearing next }
        requires within { next < row_count self.old.monitor.core }
        requires ticks { self.old.monitor.core.ticks < 2 ^ 40 }
        ensures count { result ≡ min most (row_count self.old.monitor.core - next) }
        ensures advance { IsAdvance R.stream self.old self.new result }
    {
        // For its clauses alone: each pick is a page of the space.
        let _picks = self.monitor.picks();
        let count = at_most(self.monitor.rows().len() - next, most);
        clear_pages(&self.monitor, next, next + count, &mut self.pages);
        self.monitor.cleared_next(count);
        u64::from(count)
    }

    // Loads the pages of at most `most` picks that begin with pick `next`, and returns how many.
    fn load_picks(&mut self, next: u32, most: u64) -> u64
        requires some { 1 ≤ most }
        requires phase { IsLoading self.old.monitor.core.phase (row_count self.old.monitor.core) }
        requires index { next ≡ load_index self.old.monitor.core.phase }
        ensures count { result ≡ min most (row_count self.old.monitor.core - next) }
        ensures some { 1 ≤ result }
        ensures advance { IsAdvance R.stream self.old self.new result }
    {
        // For its clauses alone: each pick is a page of the space, and those to be loaded are cleared.
        let _picks = self.monitor.picks();
        let count = at_most(self.monitor.rows().len() - next, most);
        self.pages.load(&mut self.monitor, count);
        u64::from(count)
    }

    // Ends the pass, which is one step.
    fn observe(&mut self) -> u64
        requires phase { IsObserving self.old.monitor.core.phase (row_count self.old.monitor.core) }
        requires ticks { self.old.monitor.core.ticks < 2 ^ 40 }
        ensures one { result ≡ 1 }
        ensures advance { IsAdvance R.stream self.old self.new 1 }
    {
        self.monitor.observe();
        1
    }
}

// `count`, or `most` where that is less.
fn at_most(count: u32, most: u64) -> u32
    ensures { result ≡ min count most }
{
    u64::from(count).min(most) as u32
}

// Clears the pages of the picks of the pass under way from pick `from` to before pick `to`.
fn clear_pages(monitor: &Monitor, from: u32, to: u32, pages: &mut PlainPages)
    requires pass { IsInPass monitor.now.core.phase }
    requires order { from ≤ to }
    requires within { to ≤ row_count monitor.now.core }
    requires each { length pages.old.marks ≡ pages_of monitor.now.core.space }
    requires ticks { monitor.now.core.ticks < 2 ^ 40 }
    ensures { AreCleared monitor.now.core.picks from (to - from) (monitor.now.core.ticks + 1)
        pages.old pages.new }
{
    let pass = monitor.ticks() + 1;
    pages.clear(monitor.picks(), from, to, pass);
}
