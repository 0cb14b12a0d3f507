/// Where a live run may be held.
#[derive(Clone, Copy, Debug, PartialEq, Eq)]
pub enum Spot {
    /// Before a pass is prepared. Passes are counted from 1.
    BeforePass { pass: u64 },
    /// After the clears of a pass, before its loads.
    Armed { pass: u64 },
    /// Before a worker's touch with this index.
    BeforeTouch { worker: u32, index: u32 },
    /// After it.
    AfterTouch { worker: u32, index: u32 },
    /// Before a controller's call with this index.
    BeforeCall { controller: u32, index: u32 },
    /// After it.
    AfterCall { controller: u32, index: u32 },
}

/// What holds the threads of a live run at spots. It answers nothing and promises nothing, and no lock is
/// held while it waits.
pub trait Pace {
    fn wait(&self, spot: Spot);
}

/// A pace that holds nothing.
pub struct NoPace;

impl Pace for NoPace {
    // Each spot is passed at once.
    fn wait(&self, spot: Spot) {
        let _ = spot;
    }
}
