ghost use Rattle.std.specs.Prelude.{◌≡◌, ◌+◌, ◌-◌, ◌^◌, ◌≤◌, ◌<◌};
ghost use Rattle.damon_core.specs.After.{phase_after_pass};
ghost use Rattle.damon_core.specs.Pass.{IsBetween};

use live_commit::Phase;

/// The passes that have ended: in all, and since the last aggregation.
#[derive(Clone, Copy)]
pub(crate) struct Clock {
    pub(crate) ticks: u64,
    pub(crate) since: u32,
}

impl Clock {
    // Counts a pass that has ended.
    pub(crate) fn tick(&mut self)
        requires ticks { self.old.ticks < 2 ^ 40 }
        requires since { self.old.since < 2 ^ 32 - 1 }
        ensures { self.new ≡ record {
          ticks = self.old.ticks + 1;
          since = self.old.since + 1;
        } }
    {
        self.ticks += 1;
        self.since += 1;
    }

    // The phase that follows a pass: an aggregation is due once `aggr` passes have ended since the last.
    pub(crate) fn next_phase(&self, aggr: u32) -> Phase
        ensures phase { result ≡ phase_after_pass self.now.since aggr }
        ensures between { IsBetween result }
    {
        if self.since >= aggr {
            Phase::Due
        } else {
            Phase::Idle
        }
    }
}
