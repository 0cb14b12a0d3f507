ghost use Rattle.std.specs.Prelude.{◌≡◌, ◌+◌, ◌^◌, ◌<◌};

/// The checks of all finished passes, and those that were hits.
#[derive(Clone, Copy)]
pub(crate) struct Totals {
    pub(crate) checks: u64,
    pub(crate) hits: u64,
}

impl Totals {
    // Adds the checks and hits of a pass.
    pub(crate) fn add(&mut self, checks: u32, hits: u32)
        requires checks { self.old.checks < 2 ^ 63 }
        requires hits { self.old.hits < 2 ^ 63 }
        ensures { self.new ≡ record {
          checks = self.old.checks + checks;
          hits = self.old.hits + hits;
        } }
    {
        self.checks += u64::from(checks);
        self.hits += u64::from(hits);
    }
}
