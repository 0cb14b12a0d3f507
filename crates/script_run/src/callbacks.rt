// What the owner of a run adds to it: commits that are put in, and lines of its own.
ghost use Rattle.std.specs.Prelude.{◌≡◌, ℕ, [], ◌∷◌, ◌++◌, List, None, IfSome, OnErr, OnOk};
ghost use Rattle.std.specs.List.{AllByRecursion};
ghost use Rattle.damon_core.specs.After.{after};
ghost use Rattle.damon_core.specs.Event.{Event, aggregate as aggregate_event, commit as commit_event};
ghost use Rattle.damon_core.specs.Stands.{Stands};
ghost use Rattle.damon_core.specs.State.{State};
ghost use Rattle.damon_world.specs.Touches.{touches};
ghost use Rattle.live_commit.specs.Commit.{commit_value};
ghost use Rattle.script_run.specs.Callbacks.{AddInPlace, Callbacks as CallbacksValue, IsStep, no_callbacks, put_after};
ghost use Rattle.script_run.specs.Calls.{Follows, IsAggregated, IsCommitted, MayFollow};

use damon_core::{Changed, Monitor};
use live_commit::{Commit, CommitFault};
use std::alloc::{AllocError, Global};

/// What the owner of a run adds to it. [`Player`](crate::Player) tells its callbacks of each event after it
/// was made, makes the commits that they put in, and lets them append lines of their own: after each
/// aggregation, and at the end.
pub trait Callbacks {
    /// What they remember, put in and write.
    ghost callbacks: { CallbacksValue };

    /// For what is remembered and for which states they stand.
    ghost stands_for: { Self → List ℕ → State → Type 0 };

    /// The commits that they still put in before the script goes on.
    ghost pending: { Self → List Event };

    /// The pages from `page` on, `count` of them, were touched, one after another. Nothing is remembered
    /// of it.
    fn after_touches(&mut self, page: u32, count: u32)
        requires { MayFollow (stands_for self.old) (touches page count) }
        ensures { Follows stands_for self.old self.new (touches page count) };

    /// Steps were made, none of which is an aggregation. Nothing is remembered of them.
    fn after_steps(&mut self)
        ensures { (steps : List Event) → AllByRecursion IsStep steps
            → Follows stands_for self.old self.new steps };

    /// An aggregation was carried out; the monitor is the one after it.
    fn after_aggregation(&mut self, monitor: &Monitor)
        requires { (memory : List ℕ) × (s : State) × (words : List ℕ)
            × IsAggregated (stands_for self.old) monitor.now memory s words }
        ensures stands { (memory : List ℕ) (s : State) (words : List ℕ)
            → IsAggregated (stands_for self.old) monitor.now memory s words
            → stands_for self.new (callbacks.keeps memory s (aggregate_event words))
            (after s (aggregate_event words)) }
        ensures puts { (memory : List ℕ) (s : State) (words : List ℕ)
            → IsAggregated (stands_for self.old) monitor.now memory s words
            → pending self.new ≡ put_after callbacks memory s (aggregate_event words) };

    /// A commit of the script was made, with this answer.
    fn after_commit(&mut self, commit: &Commit, answer: &Result<Changed, CommitFault>)
        ensures stands { (memory : List ℕ) (s : State)
            → IsCommitted (stands_for self.old) (commit_value commit.now) answer.now memory s
            → stands_for self.new
            (callbacks.keeps memory s (commit_event (commit_value commit.now)))
            (after s (commit_event (commit_value commit.now))) }
        ensures puts { (memory : List ℕ) (s : State)
            → IsCommitted (stands_for self.old) (commit_value commit.now) answer.now memory s
            → pending self.new
            ≡ put_after callbacks memory s (commit_event (commit_value commit.now)) };

    /// The next commit that is put in; the caller makes it at once. Nothing is remembered of it. `None`
    /// where none is left. Takes no memory.
    fn next_commit(&mut self) -> Option<Commit>
        ensures next { IfSome result (λ c.
            pending self.old ≡ commit_event (commit_value c) ∷ pending self.new) }
        ensures stands { IfSome result (λ c. Follows stands_for self.old self.new
            (commit_event (commit_value c) ∷ [])) }
        ensures none { result ≡ None → pending self.old ≡ [] }
        ensures same { result ≡ None → self.new ≡ self.old };

    /// Appends the lines that follow the text of an aggregation, after which the monitor stands. When out
    /// of memory, nothing is appended.
    fn append_lines(
        &self,
        alloc: Global,
        out: &mut Vec<u8>,
        monitor: &Monitor,
    ) -> Result<(), AllocError>
        ensures ok { OnOk result ((memory : List ℕ) (s : State) (words : List ℕ)
            → stands_for self.now memory s → Stands monitor.now s
            → out.new.items ≡ out.old.items ++ callbacks.writes memory s (aggregate_event words)) }
        ensures err { OnErr result (out.new.items ≡ out.old.items) };

    /// Appends the lines after the last line of a report, at the end of which the monitor stands. When out of
    /// memory, nothing is appended.
    fn append_end(
        &self,
        alloc: Global,
        out: &mut Vec<u8>,
        monitor: &Monitor,
    ) -> Result<(), AllocError>
        ensures ok { OnOk result ((memory : List ℕ) (s : State) → stands_for self.now memory s
            → Stands monitor.now s
            → out.new.items ≡ out.old.items ++ callbacks.ends memory s) }
        ensures err { OnErr result (out.new.items ≡ out.old.items) };

    /// They remember and put in after aggregations and commits alone, and write after aggregations alone.
    ghost in_place: { AddInPlace callbacks };
}

/// No callbacks: nothing is remembered or put in, and no line is added.
#[derive(Debug, Drop)]
pub struct NoCallbacks;

impl Callbacks for NoCallbacks {
    ghost use Rattle.std.specs.Prelude.{refl};

    ghost callbacks = { no_callbacks };

    ghost stands_for = { λ c memory s. Unit {0} };

    ghost pending = { λ c. [] };

    ghost in_place = { record {
      keeps = λ memory s e alone. refl;
      puts = λ memory s e alone. refl;
      writes = λ memory s e quiet. refl;
    } };

    #[inline(always)]
    fn after_touches(&mut self, _: u32, _: u32) {}

    #[inline(always)]
    fn after_steps(&mut self) {}

    #[inline(always)]
    fn after_aggregation(&mut self, _: &Monitor) {}

    #[inline(always)]
    fn after_commit(&mut self, _: &Commit, _: &Result<Changed, CommitFault>) {}

    #[inline(always)]
    fn next_commit(&mut self) -> Option<Commit> {
        None
    }

    #[inline(always)]
    fn append_lines(&self, _: Global, _: &mut Vec<u8>, _: &Monitor) -> Result<(), AllocError> {
        Ok(())
    }

    #[inline(always)]
    fn append_end(&self, _: Global, _: &mut Vec<u8>, _: &Monitor) -> Result<(), AllocError> {
        Ok(())
    }
}
