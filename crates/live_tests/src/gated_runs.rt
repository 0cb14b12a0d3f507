// Runs under gates, whose texts no run of one thread can write.
use crate::texts::ONE_PAGE;
use damon_journal::{Lawful, Status, verify};
use damon_live::{GatePace, Hold, LiveEnd, Pace, Spot, live_main};
use damon_types::{MemSink, MemSource};
use std::alloc::{AllocError, Global};
use std::process::Abort;
use std::sync::Wait;
use std::test::Fail;
use std::thread::Threads;

// The first touch comes after the clear, which makes the pass a hit, and the call between the clear and the
// check. The second touch comes when it likes: workers begin after the first clear, and the check waits for
// both touches.
const ONE_PAGE_JOURNAL: &[u8] = b"\
damon journal 1
seed 42
unit 1
cap 3
attrs 3 3 5
target 0x0 1
range 0 0x0 0x1000 0
begin
prepare 1 at 0
call 0 0 show
answer shown tick=0 rows=1
check 1 1
receipts
seen 0 0 0x0 1
seen 1 0 0x0 1
settled
show tick=1 phase=idle rows=1
row 0 0x0-0x1000 count=1 last=0 age=0
end ticks=1 rows=1 checks=1 hits=1
";

// A commit comes while the first pass is armed.
const VOIDED: &[u8] = b"\
damon live 1
seed 42
unit 1
cap 3
attrs 3 3 5
target 0x0 2
range 0 0x0 0x2000 0
passes 2
controller
commit
range 0 0x0 0x1000 0
apply
end
";

const VOIDED_JOURNAL: &[u8] = b"\
damon journal 1
seed 42
unit 1
cap 3
attrs 3 3 5
target 0x0 2
range 0 0x0 0x2000 0
begin
prepare 1 at 0
call 0 0 commit
range 0 0x0 0x1000 0
apply
answer ok rows=1 void=yes
void 1
prepare 2 at 2
check 2 0
receipts
settled
show tick=2 phase=idle rows=1
row 0 0x0-0x1000 count=0 last=0 age=0
end ticks=2 rows=1 checks=1 hits=0
";

// The words that ask for a run.
fn run_word(alloc: Global) -> Result<Vec<String>, AllocError> {
    let mut words = Vec::new(alloc);
    words.push(String::from_str(alloc, "run")?)?;
    Ok(words)
}

// Sees that a live script under this pace writes this journal.
fn expect_journal<R: Threads + Wait + Sync + Abort + AllocGlobal, P: Pace + Sync>(
    rt: &R,
    pace: &P,
    script: &[u8],
    journal: &[u8],
) -> Result<(), AllocError> {
    let alloc = rt.alloc();
    let words = run_word(alloc)?;
    let mut source = MemSource::new(script);
    let mut sink = MemSink::new(alloc, 4_096)?;
    let LiveEnd { status, .. } = live_main(rt, alloc, &words, &mut source, &mut sink, pace);
    assert_eq!(rt; (status, sink.bytes()), (Status::Ok, journal));
    Ok(())
}

#[test]
fn a_touch_between_clear_and_load_is_a_hit(rt: HostRuntime) -> Result<(), Fail> {
    let holds = [
        Hold {
            at: Spot::BeforeTouch {
                worker: 0,
                index: 0,
            },
            until: Spot::Armed { pass: 1 },
        },
        Hold {
            at: Spot::BeforeCall {
                controller: 0,
                index: 0,
            },
            until: Spot::AfterTouch {
                worker: 0,
                index: 0,
            },
        },
        Hold {
            at: Spot::Armed { pass: 1 },
            until: Spot::AfterCall {
                controller: 0,
                index: 0,
            },
        },
    ];
    let pace = GatePace::new(rt.alloc(), &rt, &holds)?;
    expect_journal(&rt, &pace, ONE_PAGE, ONE_PAGE_JOURNAL)?;
    Ok(())
}

#[test]
fn a_commit_makes_an_armed_pass_void(rt: HostRuntime) -> Result<(), Fail> {
    let armed = Spot::Armed { pass: 1 };
    let holds = [
        Hold {
            at: Spot::BeforeCall {
                controller: 0,
                index: 0,
            },
            until: armed,
        },
        Hold {
            at: armed,
            until: Spot::AfterCall {
                controller: 0,
                index: 0,
            },
        },
    ];
    let pace = GatePace::new(rt.alloc(), &rt, &holds)?;
    expect_journal(&rt, &pace, VOIDED, VOIDED_JOURNAL)?;
    Ok(())
}

#[test]
fn the_journal_of_a_void_pass_is_counted(rt: HostRuntime) {
    let counts = Lawful {
        passes: 2,
        loads: 1,
        hits: 0,
    };
    assert_eq!(rt; verify(rt.alloc(), VOIDED_JOURNAL), Ok(counts));
}
