//! The running monitor: a monitor whose passes, the calls of controllers and the touches of workers go on
//! beside each other, each in threads of its own.
//!
//! One lock keeps the monitor, its journal and its seat ([`Kept`]). It is held for the clears of a pass,
//! for its loads with the aggregation that may follow, or for one call. A touch is one atomic step without
//! a lock. After the joins the journal and the receipts are those of a whole run: [`run_threads`] promises
//! the same as [`run_alone`], which makes the run in one thread.
//!
//! Nothing is claimed about progress, fairness, or the order of steps of different threads.
#![tactic(auto)]

/// A whole run in one thread.
mod alone;
/// A run before its first step.
mod begin;
/// Workers, controllers and passes beside each other.
mod beside;
/// The end of a run.
mod ends;
/// What workers are given.
mod jobs;
/// What the lock keeps.
mod kept;
/// Laws: the text of a whole run is read back.
mod laws;
/// The monitor with its journal and its seat, an entry at a time.
mod machine;
/// Names for a run.
mod named;
/// Where a run may be held.
mod pace;
/// Paces that hold threads.
mod paces;
/// The atomic steps of a pass.
mod passes;
/// The passes and calls that are left.
mod rest;
/// Passes that are spread over touches.
mod spread;
/// A whole run in threads.
mod threads;
/// The top call.
mod top;
/// Workers.
mod work;

pub use alone::run_alone;
pub use ends::AloneRun;
pub use kept::{Kept, Kept1, KeptParts};
pub use laws::whole_runs_are_read_back;
pub use named::Named;
pub use pace::{NoPace, Pace, Spot};
pub use paces::{GatePace, Hold, SleepPace};
pub use threads::run_threads;
pub use top::{LiveEnd, MAX_RESULTS, live_main};
