/// The phase of a monitor. With r rows a sampling pass prepares r picks, clears their pages until
/// the monitor is `Armed`, loads their pages, and observes; then the monitor is `Due` for an
/// aggregation, or `Idle` again.
#[derive(Clone, Copy, Debug, PartialEq, Eq)]
pub enum Phase {
    /// No pass is running: the next step prepares one.
    Idle,
    /// The next step clears the page of pick `next`.
    Clearing { next: u32 },
    /// All picks are cleared: the next step loads the page of pick 0.
    Armed,
    /// The next step loads the page of pick `next`, or observes the pass if all are loaded.
    Checking { next: u32 },
    /// A commit changed the rows during the pass: the next step observes the pass as void.
    Void,
    /// The next step aggregates.
    Due,
}
