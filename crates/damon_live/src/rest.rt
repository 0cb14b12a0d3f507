// The passes and the calls that are left.
ghost use Rattle.std.specs.Prelude.{◌≡◌, ℕ, ◌+◌, ◌≤◌, ◌<◌};
ghost use Rattle.live_commit.specs.declared.phase.Phase.TheVariants.{Idle};
ghost use Rattle.run_journal.specs.Replay.{replay};
ghost use Rattle.damon_live.specs.Kept.{calls_asked, calls_made};
ghost use Rattle.damon_live.specs.Machine.{passes_made};
ghost use Rattle.damon_live.specs.Whole.{AreAllMade};

use crate::kept::Kept;
use crate::named::Named;
use live_commit::Phase;
use page_words::PageWords;

/// Makes all passes that are left, and then all calls of each controller that are left.
pub(crate) fn make_rest<N: Named>(kept: &mut Kept<'_, N>, words: &PageWords)
    requires { words.now ≡ N.table }
    ensures { AreAllMade N.script kept.new }
{
    make_passes(kept, words);
    make_calls(kept);
}

// Makes all passes that are left.
fn make_passes<N: Named>(kept: &mut Kept<'_, N>, words: &PageWords)
    requires table { words.now ≡ N.table }
    ensures idle { (replay N.script kept.new).state.core.phase ≡ Idle }
    ensures all { N.script.passes ≤ passes_made kept.new }
{
    end_begun(kept, words);
    while kept.passes() < kept.limit() {
        kept.arm(words);
        kept.check(words);
    }
}

/// Ends the pass that is begun, if there is one.
pub(crate) fn end_begun<N: Named>(kept: &mut Kept<'_, N>, words: &PageWords)
    requires table { words.now ≡ N.table }
    ensures idle { (replay N.script kept.new).state.core.phase ≡ Idle }
{
    match kept.phase() {
        Phase::Idle => {}
        _ => kept.check(words),
    }
}

// Makes all calls that are left, of one controller after another.
fn make_calls<N: Named>(kept: &mut Kept<'_, N>)
    requires { (replay N.script kept.old).state.core.phase ≡ Idle }
    ensures idle { (replay N.script kept.new).state.core.phase ≡ Idle }
    ensures made { passes_made kept.new ≡ passes_made kept.old }
    ensures all { (c : ℕ) → calls_asked c N.script ≤ calls_made c kept.new }
{
    for controller in 0..kept.controllers() {
        make_calls_of(kept, controller);
    }
}

// Makes all calls of a controller that are left.
fn make_calls_of<N: Named>(kept: &mut Kept<'_, N>, controller: u32)
    requires { (replay N.script kept.old).state.core.phase ≡ Idle }
    ensures idle { (replay N.script kept.new).state.core.phase ≡ Idle }
    ensures made { passes_made kept.new ≡ passes_made kept.old }
    ensures more { (c : ℕ) → calls_made c kept.old ≤ calls_made c kept.new }
    ensures all { calls_asked controller N.script ≤ calls_made controller kept.new }
{
    while kept.calls(controller) < kept.call_limit(controller) {
        call_idle(kept, controller);
    }
}

// Makes the next call of a controller, between two passes.
fn call_idle<N: Named>(kept: &mut Kept<'_, N>, controller: u32)
    requires idle { (replay N.script kept.old).state.core.phase ≡ Idle }
    requires left { calls_made controller kept.old < calls_asked controller N.script }
    ensures idle { (replay N.script kept.new).state.core.phase ≡ Idle }
    ensures made { passes_made kept.new ≡ passes_made kept.old }
    ensures more { (c : ℕ) → calls_made c kept.old ≤ calls_made c kept.new }
    ensures one { calls_made controller kept.new ≡ calls_made controller kept.old + 1 }
{
    kept.call(controller);
}
