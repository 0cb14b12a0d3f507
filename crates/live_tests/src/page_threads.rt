// Eight workers touch in threads of their own while the monitor clears and loads.
ghost use Rattle.std.specs.Prelude.{◌≡◌, ◌+◌, ◌<◌, ◌≤◌, ◌^◌, [], IfOk, length};
ghost use Rattle.page_words.specs.Clears.{last_clear_pass};

use page_words::{MonitorSeat, PageWords, Settled, Touch, TouchSeat, WordsAndSeat};
use std::alloc::{AllocError, Global};
use std::test::Fail;
use std::thread;
use std::thread::Threads;

const PAGES: u32 = 4;

const WORKERS: u32 = 8;

const PASSES: u64 = 60;

const TOUCHES: u32 = 5_000;

// A worker's seat, and the touches that it made.
#[derive(Drop)]
struct Worker {
    seat: TouchSeat,
    touches: Vec<Touch>,
}

// A word that the monitor loaded in a pass.
#[derive(Drop)]
struct Loaded {
    page: u32,
    pass: u64,
    word: u64,
}

// The monitor's seat, what it loaded, and the touches of each worker whose seat was gathered.
#[derive(Drop)]
struct Run {
    seat: MonitorSeat,
    loads: Vec<Loaded>,
    touches: Vec<Vec<Touch>>,
}

// Touches the pages in turn.
fn touch_pages(words: &PageWords, mut seat: TouchSeat, alloc: Global) -> Result<Worker, AllocError>
    requires table { seat.table ≡ words.now }
    requires pages { words.now.words ≡ 4 }
    requires fresh { seat.touches ≡ [] }
    ensures table { IfOk result (λ w. w.seat.table ≡ words.now) }
    ensures touches { IfOk result (λ w. w.touches.items ≡ w.seat.touches) }
{
    let mut touches = Vec::new(alloc);
    'touching: for touch in 0..TOUCHES {
        let page = touch % PAGES;
        let tag = words.touch(&mut seat, page);
        touches.push(Touch { page, tag })?;
    }
    Ok(Worker { seat, touches })
}

// Clears each page.
fn clear_pages(words: &PageWords, seat: &mut MonitorSeat, pass: u64)
    requires table { seat.old.table ≡ words.now }
    requires pages { words.now.words ≡ 4 }
    requires some { 1 ≤ pass }
    requires most { pass ≤ 2 ^ 62 }
    requires later { last_clear_pass seat.old.entries ≤ pass }
    ensures table { seat.new.table ≡ seat.old.table }
    ensures last { last_clear_pass seat.new.entries ≤ pass }
{
    'clearing: for page in 0..PAGES {
        words.clear(seat, page, pass);
    }
}

// Loads each page.
fn load_pages(
    words: &PageWords,
    seat: &mut MonitorSeat,
    pass: u64,
    loads: &mut Vec<Loaded>,
) -> Result<(), AllocError>
    requires table { seat.old.table ≡ words.now }
    requires pages { words.now.words ≡ 4 }
    ensures table { seat.new.table ≡ seat.old.table }
    ensures last { last_clear_pass seat.new.entries ≡ last_clear_pass seat.old.entries }
{
    'loading: for page in 0..PAGES {
        let word = words.load(seat, page);
        loads.push(Loaded { page, pass, word })?;
    }
    Ok(())
}

// Clears and loads all pages in each pass.
fn watch(words: &PageWords, mut seat: MonitorSeat, alloc: Global) -> Result<Run, AllocError>
    requires table { seat.table ≡ words.now }
    requires pages { words.now.words ≡ 4 }
    requires none { last_clear_pass seat.entries ≡ 0 }
    ensures { IfOk result (λ r. r.seat.table ≡ words.now) }
{
    let mut loads = Vec::new(alloc);
    'watching: for pass in 1..=PASSES {
        clear_pages(words, &mut seat, pass);
        load_pages(words, &mut seat, pass, &mut loads)?;
    }
    Ok(Run {
        seat,
        loads,
        touches: Vec::new(alloc),
    })
}

// Starts a thread for each worker, watches while they touch, and gathers each.
fn run_beside<R: Threads + Sync>(
    rt: &R,
    alloc: Global,
    words: &PageWords,
    mut seat: MonitorSeat,
    workers: u32,
) -> Result<Run, AllocError>
    requires table { seat.table ≡ words.now }
    requires pages { words.now.words ≡ 4 }
    requires none { last_clear_pass seat.entries ≡ 0 }
    requires room { seat.out + workers < 2 ^ 32 }
    ensures { IfOk result (λ r. r.seat.table ≡ words.now) }
{
    if workers == 0 {
        return watch(words, seat, alloc);
    }
    let others = workers - 1;
    let touch = words.split(&mut seat, workers);
    let (worker, run) = thread::join(
        rt,
        || touch_pages(words, touch, alloc),
        || -> Result<Run, AllocError>
            requires { (seat.table ≡ words.now) × (words.now.words ≡ 4) × (last_clear_pass seat.entries ≡ 0) × (seat.out + others < 2 ^ 32) }
            ensures { IfOk result (λ r. r.seat.table ≡ words.entry.now) }
        { run_beside(rt, alloc, words, seat, others) },
    );
    let Worker {
        seat: touch,
        touches,
    } = worker?;
    let Run {
        mut seat,
        loads,
        touches: mut all,
    } = run?;
    words.gather(&mut seat, touch);
    all.push(touches)?;
    Ok(Run {
        seat,
        loads,
        touches: all,
    })
}

// Some worker touched the page, and was told this tag.
fn was_touched(all: &[Vec<Touch>], page: u32, tag: u64) -> bool {
    all.iter().any(|touches| touches.iter().any(|t| t.page == page && t.tag == tag))
}

// Each load names its pass, and an odd one has a touch.
fn loads_agree(run: &Run) -> bool {
    run.loads.iter().all(|load| {
        load.word / 2 == load.pass
            && (load.word % 2 == 0 || was_touched(&run.touches, load.page, load.pass))
    })
}

// The settled word names the last pass, and is odd exactly where its page has a touch of that pass.
fn word_agrees(settled: &Settled, all: &[Vec<Touch>], page: u32) -> bool
    requires { page < length settled.now }
{
    let word = settled.word(page);
    word / 2 == PASSES && (word % 2 == 1) == was_touched(all, page, PASSES)
}

// Each settled word agrees with the touches.
fn words_agree(settled: &Settled, all: &[Vec<Touch>]) -> bool
    requires { length settled.now ≡ 4 }
{
    'checking: for page in 0..PAGES {
        if !word_agrees(settled, all, page) {
            return false;
        }
    }
    true
}

// A worker touched the pages in turn, and the tags of one page never fall.
fn tags_rise(touches: &[Touch]) -> bool {
    let later = touches.iter().skip(PAGES as usize);
    touches.iter().zip(later).all(|(t, u)| t.page == u.page && t.tag <= u.tag && u.tag <= PASSES)
}

#[test]
fn workers_touch_beside_the_monitor(rt: HostRuntime) -> Result<(), Fail> {
    let alloc = rt.alloc();
    let WordsAndSeat { words, seat } = PageWords::new(alloc, PAGES)?;
    let run = run_beside(&rt, alloc, &words, seat, WORKERS)?;
    assert_eq!(rt; run.seat.out(), 0);
    assert_eq!(rt; run.seat.last(), PASSES);
    assert_eq!(rt; run.touches.len(), WORKERS as usize);
    assert!(rt; run.touches.iter().all(|touches| tags_rise(touches)));
    assert!(rt; loads_agree(&run));
    let Run { seat, touches, .. } = run;
    let settled = words.settle(seat);
    assert!(rt; words_agree(&settled, &touches));
    Ok(())
}
