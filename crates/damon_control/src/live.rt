use damon_types::PlainList;
use live_commit::{Commit, Setup};

/// The most workers of a live script.
pub const MAX_WORKERS: u32 = 16;

/// The most controllers of a live script.
pub const MAX_CONTROLLERS: u32 = 4;

/// The most calls of all controllers of a live script.
pub const MAX_CALLS: u32 = 65_536;

/// One call of a controller.
#[derive(Drop)]
pub enum Call {
    /// One show.
    Show,
    /// One commit, boxed as in a command of a script.
    Commit { commit: Box<Commit> },
}

/// The pages that a worker touches, in order.
pub type Trace = PlainList<u32>;

/// A trace for each worker.
pub type Traces = PlainList<Trace>;

/// The calls of a controller, in order.
pub type CallList = PlainList<Call>;

/// A list of calls for each controller.
pub type CallLists = PlainList<CallList>;

/// A live script: the seed of its random words, what its monitor is started with, the passes that it
/// makes, and what its workers and controllers do beside them.
#[derive(Drop)]
pub struct LiveScript {
    pub seed: u64,
    pub setup: Setup,
    /// The passes, from 1 to [`MAX_PASSES`](crate::MAX_PASSES).
    pub passes: u32,
    /// At most [`MAX_WORKERS`] traces, with at most [`MAX_TOUCHES`](crate::MAX_TOUCHES) pages in all.
    pub workers: Traces,
    /// At most [`MAX_CONTROLLERS`] lists, with at most [`MAX_CALLS`] calls in all.
    pub controllers: CallLists,
}
