// Paces that hold the threads of a run, for tests of runs whose order is given.
ghost use Rattle.std.specs.Prelude.{◌≡◌, IfOk};

use crate::pace::{Pace, Spot};
use std::alloc::{AllocError, Global};
use std::marker::Model;
use std::sync::atomic::{AtomicBool, Ordering};
use std::thread;
use std::time::{Clock, Duration};

// How long one turn of waiting lasts, in milliseconds.
const TURN: u64 = 1;

// The most turns for which a spot is held.
const MAX_TURNS: u32 = 10_000;

/// A pace that sleeps for a millisecond at each spot, so that threads meet in another order each time. To
/// contracts it is its clock.
#[derive(Drop)]
pub struct SleepPace<R: Clock> {
    clock: R,
}

impl<R: Clock> Model for SleepPace<R> {
    ghost Value = { R };

    ghost view = { λ p. p.clock };
}

impl<R: Clock> SleepPace<R> {
    /// A pace that sleeps by this clock.
    pub fn new(clock: R) -> SleepPace<R>
        ensures { result ≡ clock }
    {
        SleepPace { clock }
    }
}

impl<R: Clock> Pace for SleepPace<R> {
    // Each spot is held alike.
    fn wait(&self, spot: Spot) {
        let _ = spot;
        thread::sleep(&self.clock, Duration::from_millis(TURN));
    }
}

/// One spot is held until another one was reached.
#[derive(Clone, Copy, Debug, PartialEq, Eq)]
pub struct Hold {
    pub at: Spot,
    pub until: Spot,
}

// A hold, and whether the spot for which it waits was reached.
#[derive(Drop)]
struct Gate {
    hold: Hold,
    open: AtomicBool,
}

/// A pace that holds spots until others were reached, each for at most ten seconds. To contracts it is the
/// list of its holds.
#[derive(Drop)]
pub struct GatePace<R: Clock> {
    clock: R,
    gates: Vec<Gate>,
}

impl<R: Clock> Model for GatePace<R> {
    ghost use Rattle.std.specs.Prelude.{List, map};
    ghost use Rattle.damon_live.specs.declared.paces.Hold.{Hold};

    ghost Value = { List Hold };

    ghost view = { λ p. map (λ g. g.hold) p.gates.items };
}

impl<R: Clock + Drop> GatePace<R> {
    /// A pace with these holds, which sleeps by this clock. Takes memory; on an error the clock is dropped.
    pub fn new(alloc: Global, clock: R, holds: &[Hold]) -> Result<GatePace<R>, AllocError>
        ensures { IfOk result (λ p. p ≡ holds.now) }
    {
        let mut gates = Vec::new(alloc);
        'gates: for hold in holds {
            gates.push(Gate {
                hold: *hold,
                open: AtomicBool::new(false),
            })?;
        }
        Ok(GatePace { clock, gates })
    }
}

impl<R: Clock> GatePace<R> {
    // Waits until a gate is open.
    fn pass(&self, gate: &Gate) {
        for _ in 0..MAX_TURNS {
            if gate.open.load(Ordering::SeqCst) {
                return;
            }
            thread::sleep(&self.clock, Duration::from_millis(TURN));
        }
    }
}

impl<R: Clock> Pace for GatePace<R> {
    fn wait(&self, spot: Spot) {
        for gate in &self.gates {
            if gate.hold.until == spot {
                gate.open.store(true, Ordering::SeqCst);
            }
        }
        for gate in &self.gates {
            if gate.hold.at == spot {
                self.pass(gate);
            }
        }
    }
}
