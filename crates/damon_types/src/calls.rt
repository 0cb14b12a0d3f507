ghost use Rattle.std.specs.Prelude.{◌≡◌};
ghost use Rattle.damon_types.specs.Calls.{after_call, no_calls};

/// How often a stream was called. Each count stays at 2^64 - 1.
#[derive(Clone, Copy, Debug, PartialEq, Eq)]
pub struct Calls {
    /// The calls so far.
    pub made: u64,
    /// The calls that failed.
    pub failed: u64,
    /// The calls that were made after one that failed.
    pub late: u64,
}

impl Calls {
    /// No call so far.
    pub fn new() -> Calls
        ensures { result ≡ no_calls }
    {
        Calls {
            made: 0,
            failed: 0,
            late: 0,
        }
    }

    /// Counts one more call, which failed or not.
    pub fn count(&mut self, fails: bool)
        ensures { self.new ≡ after_call fails self.old }
    {
        self.made = self.made.saturating_add(1);
        if self.failed != 0 {
            self.late = self.late.saturating_add(1);
        }
        if fails {
            self.failed = self.failed.saturating_add(1);
        }
    }
}
