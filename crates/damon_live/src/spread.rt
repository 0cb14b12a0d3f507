// A pace under which the passes of a run are spread over its touches.
use crate::pace::{Pace, Spot};
use damon_control::LiveScript;
use std::sync::atomic::{AtomicBool, AtomicU64, Ordering};
use std::thread;

// The most turns for which a thread waits. A thread that could not be made is never there.
const MAX_TURNS: u32 = 100_000;

// For how many of them it only looks. A yield may take milliseconds, and what others do meanwhile takes
// less.
const LOOKS: u32 = 4_000;

// How often a worker counts its touches at least, and the most that it counts at once.
const COUNTS: u32 = 64;

const MAX_COUNT: u64 = 64;

/// Spreads the passes of a run over its touches, and then holds each spot as another pace does.
///
/// Workers begin to touch once the first pass has cleared its pages. A pass is checked when its share
/// of all touches is made, so that it finds some of them. Each wait has an end, and after one that took
/// too long there are no more.
#[derive(Drop)]
pub(crate) struct Spread<'a, P> {
    pace: &'a P,
    // Whether the first pass has cleared its pages.
    cleared: AtomicBool,
    // All touches and all passes of the script.
    touches: u64,
    passes: u32,
    // How many touches were made, as far as they are counted: a worker counts where all bits of this
    // mask are set in the index of a touch.
    touched: AtomicU64,
    mask: u32,
    // The most touches that are made and not counted yet.
    uncounted: u64,
    // Whether a wait took too long.
    late: AtomicBool,
}

impl<'a, P> Spread<'a, P> {
    /// A pace for a run of this script.
    pub(crate) fn new(script: &LiveScript, pace: &'a P) -> Spread<'a, P> {
        let workers = script.workers.len();
        let mut touches = 0;
        for trace in script.workers.as_slice() {
            touches = u64::saturating_add(touches, u64::from(trace.len()));
        }
        let most = part_of(part_of(touches, workers), COUNTS).min(MAX_COUNT) as u32;
        let mask = most.next_power_of_two() - 1;
        Spread {
            pace,
            cleared: AtomicBool::new(false),
            touches,
            passes: script.passes,
            touched: AtomicU64::new(0),
            mask,
            uncounted: u64::from(mask).saturating_mul(u64::from(workers)),
            late: AtomicBool::new(false),
        }
    }
}

// A number divided into parts, if there are some.
fn part_of(number: u64, parts: u32) -> u64 {
    if parts == 0 {
        0
    } else {
        number / u64::from(parts)
    }
}

impl<P: Pace> Spread<'_, P> {
    // Waits until something is so, or for long enough.
    fn hold<T: Fn() -> bool>(&self, is_so: T)
        requires { T.IsAlwaysCallable is_so }
    {
        for turn in 0..MAX_TURNS {
            if is_so() || self.late.load(Ordering::SeqCst) {
                return;
            }
            if turn >= LOOKS {
                thread::yield_now();
            }
        }
        self.late.store(true, Ordering::SeqCst);
    }

    // Waits until the touches up to the share of a pass are made, but for those not counted yet.
    fn hold_pass(&self, pass: u64) {
        let share = part_of(self.touches.saturating_mul(pass), self.passes);
        self.hold(|| {
            let touched = self.touched.load(Ordering::SeqCst);
            touched.saturating_add(self.uncounted) >= share
        });
    }

    // Counts a worker's touches up to this one.
    fn count(&self, index: u32) {
        if index & self.mask == self.mask {
            self.touched
                .fetch_add(u64::from(self.mask) + 1, Ordering::SeqCst);
        }
    }
}

impl<P: Pace> Pace for Spread<'_, P> {
    fn wait(&self, spot: Spot) {
        match spot {
            Spot::Armed { pass: 1 } => self.cleared.store(true, Ordering::SeqCst),
            Spot::BeforeTouch { index: 0, .. } => self.hold(|| self.cleared.load(Ordering::SeqCst)),
            _ => {}
        }
        self.pace.wait(spot);
        match spot {
            Spot::Armed { pass } => self.hold_pass(pass),
            Spot::AfterTouch { index, .. } => self.count(index),
            _ => {}
        }
    }
}
