ghost use Rattle.std.specs.Prelude.{◌≡◌, ℕ, List, [], ◌∷◌, ◌++◌, ◌≤◌, ◌<◌, ◌+◌, ◌-◌, All, true, false, Ok, Err, IfOk, IfErr, IfNone, IfSome, OnOk, codes, ◌||◌, length, Result};
ghost use Rattle.damon_types.specs.declared.range.RangeSpec.{RangeSpec as spec};
ghost use Rattle.damon_types.specs.declared.scheme.SlotChange.{SlotChange as change};
ghost use Rattle.damon_types.specs.declared.space.Target.{Target as target};
ghost use Rattle.damon_types.specs.Space.{pages_of};
ghost use Rattle.live_commit.specs.SetupView.{value_of};
ghost use Rattle.damon_control.specs.declared.reader.TheConstants.{MAX_BYTES};
ghost use Rattle.damon_control.specs.declared.live.TheConstants.{MAX_CALLS, MAX_CONTROLLERS};
ghost use Rattle.damon_control.specs.declared.grammar.Grammar.TheVariants.{OfLive as of_live};
ghost use Rattle.script_lines.specs.declared.setup.Frame.{Frame as frame};
ghost use Rattle.script_lines.specs.Head.{setup_said};
ghost use Rattle.damon_control.specs.Left.{FaultOf, IsShort, MovesTo, first_begins, reads_left};
ghost use Rattle.damon_control.specs.Live.{LiveValue as live, count_all, live_begun};
ghost use Rattle.script_lines.specs.Blocks.{page_list, pages_said};
ghost use Rattle.damon_control.specs.LiveView.{NoBlock, NoTouch, NoWorker, calls_of, live_said, reads_end, reads_touches, reads_worker, touch_within, traces_of, with_pages, with_workers};
ghost use Rattle.damon_control.specs.Script.{AtEnd, AtHeader, AtSchemes, InBody, live_of};

use crate::calls::read_controllers;
use crate::grammar::Grammar;
use crate::lines::Lines;
use crate::live::{LiveScript, MAX_WORKERS, Trace, Traces};
use crate::reader::{make_setup, read_head};
use crate::{ReadFail, ScriptFault};
use damon_types::Space;
use live_commit::Setup;
use script_lines::{
    MAX_PASSES, MAX_TOUCHES, Pages, ScriptKind, alone, read_block, read_passes, read_touches,
};
use std::alloc::{AllocError, Global};

/// Reads a live script of at most [`MAX_BYTES`](crate::MAX_BYTES) bytes. For any other text, returns the
/// first line that is rejected and the first kind that applies to it. By the law
/// [`live_texts_are_exactly_read`](crate::live_texts_are_exactly_read) a text is a live script exactly
/// where it says one, line by line. Allocates; returns `Memory` only if out of memory.
pub fn read_live(alloc: Global, bytes: &[u8]) -> Result<LiveScript, ReadFail>
    requires { length bytes.now ≤ MAX_BYTES }
    ensures script { IfOk result (λ s. live_of bytes.now ≡ Ok (live_said s)) }
    ensures fault { FaultOf result (live_of bytes.now) }
    ensures some_pass { IfOk result (λ s. 1 ≤ s.passes) }
    ensures passes { IfOk result (λ s. s.passes ≤ MAX_PASSES) }
    ensures workers { IfOk result (λ s. length s.workers.list ≤ MAX_WORKERS) }
    ensures controllers { IfOk result (λ s. length s.controllers.list ≤ MAX_CONTROLLERS) }
    ensures touches { IfOk result (λ s. count_all (traces_of s.workers.list) ≤ MAX_TOUCHES) }
    ensures calls { IfOk result (λ s. count_all (calls_of s.controllers.list) ≤ MAX_CALLS) }
    ensures pages { IfOk result (λ s.
        All (λ t. All (λ p. p < pages_of s.setup.space) t.list) s.workers.list) }
{
    let mut lines = Lines::new(bytes);
    let Opening {
        seed,
        setup,
        passes,
    } = read_opening(alloc, &mut lines)?;
    let workers = read_workers(alloc, &mut lines, &setup.space)?;
    let controllers = read_controllers(alloc, &mut lines, setup.version)?;
    read_end(&mut lines)?;
    lines.end()?;
    Ok(LiveScript {
        seed,
        setup,
        passes,
        workers,
        controllers,
    })
}

// What the lines before the blocks say.
#[derive(Drop)]
struct Opening {
    seed: u64,
    setup: Setup,
    passes: u32,
}

// Reads the lines up to `passes`.
fn read_opening(alloc: Global, lines: &mut Lines) -> Result<Opening, ReadFail>
    requires { IsShort lines.old }
    ensures ok { IfOk result (λ o. MovesTo of_live AtHeader lines.old
        (InBody (live_begun o.seed (value_of o.setup) o.passes)) lines.new) }
    ensures fault { FaultOf result (reads_left of_live AtHeader lines.old) }
    ensures small { IsShort lines.new }
    ensures some { IfOk result (λ o. 1 ≤ o.passes) }
    ensures most { IfOk result (λ o. o.passes ≤ MAX_PASSES) }
{
    let head = read_head(alloc, lines, Grammar::OfLive)?;
    let passes = take_passes(lines)?;
    let seed = head.frame.seed;
    let setup = make_setup(alloc, head)?;
    Ok(Opening {
        seed,
        setup,
        passes,
    })
}

// Reads the line of the passes.
fn take_passes(lines: &mut Lines) -> Result<u32, ScriptFault>
    requires small { IsShort lines.old }
    requires all { first_begins (codes "scheme") lines.old.rest.now ≡ false }
    ensures ok { IfOk result (λ n. (f : frame) (ts : List target) (rs : List spec) (cs : List change) →
        MovesTo of_live (AtSchemes f ts rs cs) lines.old
        (InBody (live_begun f.seed (setup_said f ts rs cs) n)) lines.new) }
    ensures fault { IfErr result (λ fault.
        (f : frame) (ts : List target) (rs : List spec) (cs : List change) →
        reads_left of_live (AtSchemes f ts rs cs) lines.old ≡ Err fault) }
    ensures small { IsShort lines.new }
    ensures some { IfOk result (λ n. 1 ≤ n) }
    ensures most { IfOk result (λ n. n ≤ MAX_PASSES) }
{
    let line = lines.take_line()?;
    lines.refuse(read_passes(line))
}

// Reads the blocks of the workers.
fn read_workers(alloc: Global, lines: &mut Lines, space: &Space) -> Result<Traces, ReadFail>
    requires { IsShort lines.old }
    ensures ok { IfOk result (λ w. (v : live) → v.setup.space ≡ space.now →
        MovesTo of_live (InBody (with_workers v [])) lines.old
        (InBody (with_workers v (traces_of w.list))) lines.new) }
    ensures fault { (v : live) → v.setup.space ≡ space.now →
        FaultOf result (reads_left of_live (InBody (with_workers v [])) lines.old) }
    ensures past { IfOk result (λ w. NoWorker (traces_of w.list) lines.new.rest.now) }
    ensures few { IfOk result (λ w. length w.list ≤ MAX_WORKERS) }
    ensures sum { IfOk result (λ w. count_all (traces_of w.list) ≤ MAX_TOUCHES) }
    ensures within { IfOk result (λ w. All (λ t. All (λ p. p < pages_of space.now) t.list) w.list) }
    ensures small { IsShort lines.new }
{
    let mut workers = Traces::new(alloc);
    let mut touches = 0;
    'workers: while lines.next_is(b"worker") {
        begin_worker(lines, workers.len())?;
        let trace = read_trace(alloc, lines, space, &mut touches)?;
        workers.push(trace)?;
    }
    Ok(workers)
}

// Reads the line `worker`, after this many workers.
fn begin_worker(lines: &mut Lines, count: u32) -> Result<(), ScriptFault>
    requires wanted { first_begins (codes "worker") lines.old.rest.now ≡ true }
    requires small { IsShort lines.old }
    ensures ok { OnOk result ((v : live) (ws : List (List ℕ)) → length ws ≡ count →
        MovesTo of_live (InBody (with_workers v ws)) lines.old
        (InBody (with_workers v (ws ++ [] ∷ []))) lines.new) }
    ensures fault { IfErr result (λ fault. (v : live) (ws : List (List ℕ)) → length ws ≡ count →
        reads_left of_live (InBody (with_workers v ws)) lines.old ≡ Err fault) }
    ensures few { OnOk result (count < MAX_WORKERS) }
    ensures small { IsShort lines.new }
    ensures shorter { OnOk result (length lines.new.rest.now < length lines.old.rest.now) }
{
    let line = take_worker(lines)?;
    lines.refuse(read_block(b"worker", line, count, MAX_WORKERS))
}

// Takes a line that begins a worker.
fn take_worker<'a>(lines: &mut Lines<'a>) -> Result<&'a [u8], ScriptFault>
    requires wanted { first_begins (codes "worker") lines.old.rest.now ≡ true }
    requires small { IsShort lines.old }
    ensures line { IfOk result (λ line. (v : live) (ws : List (List ℕ)) →
        reads_left of_live (InBody (with_workers v ws)) lines.old
        ≡ reads_worker v ws line.now lines.new) }
    ensures cut { IfErr result (λ fault. (v : live) (ws : List (List ℕ)) →
        reads_left of_live (InBody (with_workers v ws)) lines.old ≡ Err fault) }
    ensures small { IsShort lines.new }
    ensures shorter { IfOk result (λ _. length lines.new.rest.now < length lines.old.rest.now) }
{
    let line = lines.take_line()?;
    Ok(line)
}

// Reads the touches of a worker, where those before it and its own are counted.
fn read_trace(
    alloc: Global,
    lines: &mut Lines,
    space: &Space,
    touches: &mut u32,
) -> Result<Trace, ReadFail>
    requires small { IsShort lines.old }
    requires most { touches.old ≤ MAX_TOUCHES }
    ensures ok { IfOk result (λ t. (v : live) (ws : List (List ℕ)) → v.setup.space ≡ space.now
        → count_all ws ≡ touches.old →
        MovesTo of_live (InBody (with_workers v (ws ++ [] ∷ []))) lines.old
        (InBody (with_workers v (ws ++ t.list ∷ []))) lines.new) }
    ensures fault { (v : live) (ws : List (List ℕ)) → v.setup.space ≡ space.now
        → count_all ws ≡ touches.old →
        FaultOf result (reads_left of_live (InBody (with_workers v (ws ++ [] ∷ []))) lines.old) }
    ensures sum { IfOk result (λ t. touches.new ≡ touches.old + length t.list) }
    ensures most { OnOk result (touches.new ≤ MAX_TOUCHES) }
    ensures within { IfOk result (λ t. All (λ p. p < pages_of space.now) t.list) }
    ensures past { OnOk result (NoTouch lines.new.rest.now) }
    ensures small { IsShort lines.new }
    ensures shorter { OnOk result (length lines.new.rest.now ≤ length lines.old.rest.now) }
{
    let mut trace = Trace::new(alloc);
    'touches: while let Some(pages) = next_touches(lines, space, *touches)? {
        *touches += pages.to - pages.from;
        push_pages(&mut trace, pages)?;
    }
    Ok(trace)
}

// Reads the line `end`, where no line of a block comes next.
fn read_end(lines: &mut Lines) -> Result<(), ScriptFault>
    requires small { IsShort lines.old }
    ensures ok { OnOk result ((v : live) → NoBlock v lines.old.rest.now →
        MovesTo of_live (InBody v) lines.old (AtEnd v) lines.new) }
    ensures fault { IfErr result (λ fault. (v : live) → NoBlock v lines.old.rest.now →
        reads_left of_live (InBody v) lines.old ≡ Err fault) }
    ensures small { IsShort lines.new }
{
    let line = take_end(lines)?;
    lines.refuse(alone(b"end", line))
}

// Takes a line with which no block goes on.
fn take_end<'a>(lines: &mut Lines<'a>) -> Result<&'a [u8], ScriptFault>
    requires { IsShort lines.old }
    ensures line { IfOk result (λ line. (v : live) → NoBlock v lines.old.rest.now →
        reads_left of_live (InBody v) lines.old ≡ reads_end v line.now lines.new) }
    ensures cut { IfErr result (λ fault. (v : live) →
        reads_left of_live (InBody v) lines.old ≡ Err fault) }
    ensures small { IsShort lines.new }
{
    let line = lines.take_line()?;
    Ok(line)
}

// Reads the next line of touches, after this many touches, or nothing where the next line is none. Most
// lines are a plain touch, which has a faster reader.
fn next_touches(
    lines: &mut Lines,
    space: &Space,
    touches: u32,
) -> Result<Option<Pages>, ScriptFault>
    requires small { IsShort lines.old }
    requires most { touches ≤ MAX_TOUCHES }
    ensures ok { IfOk result (λ next. (v : live) (ws : List (List ℕ)) (t : List ℕ)
        → v.setup.space ≡ space.now → count_all ws + length t ≡ touches →
        MovesTo of_live (InBody (with_workers v (ws ++ t ∷ []))) lines.old
        (InBody (with_workers v (ws ++ with_pages t next ∷ []))) lines.new) }
    ensures fault { IfErr result (λ fault. (v : live) (ws : List (List ℕ)) (t : List ℕ)
        → v.setup.space ≡ space.now → count_all ws + length t ≡ touches →
        reads_left of_live (InBody (with_workers v (ws ++ t ∷ []))) lines.old ≡ Err fault) }
    ensures rise { IfOk result (λ next. IfSome next (λ p. p.from ≤ p.to)) }
    ensures most { IfOk result (λ next. IfSome next (λ p. touches + (p.to - p.from) ≤ MAX_TOUCHES)) }
    ensures within { IfOk result (λ next. IfSome next (λ p. p.to ≤ pages_of space.now)) }
    ensures past { IfOk result (λ next. IfNone next (NoTouch lines.new.rest.now)) }
    ensures small { IsShort lines.new }
    ensures shorter { IfOk result (λ next. IfSome next (λ _.
        length lines.new.rest.now < length lines.old.rest.now)) }
    ensures as_long { IfOk result (λ next. IfNone next (
        length lines.new.rest.now ≡ length lines.old.rest.now)) }
{
    if let Some(page) = lines.take_touch(space) {
        let pages = lines.refuse(one_page(space, page, touches))?;
        return Ok(Some(pages));
    }
    if is_touched(lines) {
        let pages = take_touches(lines, space, touches)?;
        Ok(Some(pages))
    } else {
        Ok(None)
    }
}

// The page of a touch, after this many touches.
fn one_page(space: &Space, page: u32, touches: u32) -> Result<Pages, ScriptKind>
    requires below { page < pages_of space.now }
    requires most { touches ≤ MAX_TOUCHES }
    ensures exact { pages_said result ≡ touch_within page touches }
    ensures rise { IfOk result (λ p. p.from ≤ p.to) }
    ensures most { IfOk result (λ p. touches + (p.to - p.from) ≤ MAX_TOUCHES) }
    ensures within { IfOk result (λ p. p.to ≤ pages_of space.now) }
{
    // There are at most 1,048,576 pages.
    let _targets = space.targets();
    if touches < MAX_TOUCHES {
        Ok(Pages {
            from: page,
            to: page + 1,
        })
    } else {
        Err(ScriptKind::TooMuch)
    }
}

// Whether the next line is a touch or a sweep.
fn is_touched(lines: &Lines) -> bool
    ensures { result ≡ (first_begins (codes "touch") lines.now.rest.now
        || first_begins (codes "sweep") lines.now.rest.now) }
{
    lines.next_is(b"touch") || lines.next_is(b"sweep")
}

// Reads one more touch or sweep, after this many touches.
fn take_touches(lines: &mut Lines, space: &Space, touches: u32) -> Result<Pages, ScriptFault>
    requires wanted { (first_begins (codes "touch") lines.old.rest.now
        || first_begins (codes "sweep") lines.old.rest.now) ≡ true }
    requires small { IsShort lines.old }
    requires most { touches ≤ MAX_TOUCHES }
    ensures ok { IfOk result (λ p. (v : live) (ws : List (List ℕ)) (t : List ℕ)
        → v.setup.space ≡ space.now → count_all ws + length t ≡ touches →
        MovesTo of_live (InBody (with_workers v (ws ++ t ∷ []))) lines.old
        (InBody (with_workers v (ws ++ (t ++ page_list p) ∷ []))) lines.new) }
    ensures fault { IfErr result (λ fault. (v : live) (ws : List (List ℕ)) (t : List ℕ)
        → v.setup.space ≡ space.now → count_all ws + length t ≡ touches →
        reads_left of_live (InBody (with_workers v (ws ++ t ∷ []))) lines.old ≡ Err fault) }
    ensures rise { IfOk result (λ p. p.from ≤ p.to) }
    ensures most { IfOk result (λ p. touches + (p.to - p.from) ≤ MAX_TOUCHES) }
    ensures within { IfOk result (λ p. p.to ≤ pages_of space.now) }
    ensures small { IsShort lines.new }
    ensures shorter { OnOk result (length lines.new.rest.now < length lines.old.rest.now) }
{
    let line = take_touch(lines)?;
    lines.refuse(read_touches(space, line, touches))
}

// Takes a line of touches.
fn take_touch<'a>(lines: &mut Lines<'a>) -> Result<&'a [u8], ScriptFault>
    requires wanted { (first_begins (codes "touch") lines.old.rest.now
        || first_begins (codes "sweep") lines.old.rest.now) ≡ true }
    requires small { IsShort lines.old }
    ensures line { IfOk result (λ line. (v : live) (ws : List (List ℕ)) (t : List ℕ) →
        reads_left of_live (InBody (with_workers v (ws ++ t ∷ []))) lines.old
        ≡ reads_touches v ws t line.now lines.new) }
    ensures cut { IfErr result (λ fault. (v : live) (ws : List (List ℕ)) →
        reads_left of_live (InBody (with_workers v ws)) lines.old ≡ Err fault) }
    ensures small { IsShort lines.new }
    ensures shorter { IfOk result (λ _. length lines.new.rest.now < length lines.old.rest.now) }
{
    let line = lines.take_line()?;
    Ok(line)
}

// Appends pages to a trace.
fn push_pages(trace: &mut Trace, pages: Pages) -> Result<(), AllocError>
    requires rise { pages.from ≤ pages.to }
    requires room { length trace.old.list + (pages.to - pages.from) ≤ MAX_TOUCHES }
    ensures added { OnOk result (trace.new.list ≡ trace.old.list ++ page_list pages) }
    ensures within { (most : ℕ) → pages.to ≤ most → All (λ p. p < most) trace.old.list
        → OnOk result (All (λ p. p < most) trace.new.list) }
{
    for page in pages.from..pages.to {
        trace.push(page)?;
    }
    Ok(())
}
