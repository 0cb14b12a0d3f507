ghost use Rattle.std.specs.Prelude.{◌≡◌, ◌+◌, ◌^◌, ◌<◌, ◌∷◌, [], count_by};
ghost use Rattle.live_commit.specs.declared.phase.Phase.TheVariants as variant;
ghost use Rattle.sampler.specs.Counted.{raised};
ghost use Rattle.damon_core.specs.After.{passed_core};
ghost use Rattle.damon_core.specs.Event.{IsObserving, observe as observe_event};
ghost use Rattle.damon_core.specs.Makes.{Makes};
ghost use Rattle.damon_core.specs.Stands.{Stands};
ghost use Rattle.damon_core.specs.State.{row_count};

use crate::Monitor;
use live_commit::Phase;

impl Monitor {
    /// Ends the pass, of which each pick is loaded, or which is void. One that is not void raises the
    /// count of each row whose load was a hit. The passes in all are below 2^40.
    pub fn observe(&mut self)
        requires phase { IsObserving self.old.core.phase (row_count self.old.core) }
        requires ticks { self.old.core.ticks < 2 ^ 40 }
        ensures core { self.new.core
            ≡ passed_core (record self.old.core { regions = self.new.core.regions }) }
        ensures cap { self.new.core.regions.cap ≡ self.old.core.regions.cap }
        ensures counts { self.old.core.phase ≡ variant.Checking (row_count self.old.core)
            → self.new ≡ record self.old {
              core = passed_core (record self.old.core {
                regions = record self.old.core.regions {
                  rows = raised self.old.bits self.old.core.regions.rows;
                };
              });
              checks = self.old.checks + row_count self.old.core;
              hits = self.old.hits + count_by (λ hit. hit) self.old.bits;
            } }
        ensures void { self.old.core.phase ≡ variant.Void
            → self.new ≡ record self.old { core = passed_core self.old.core } }
        ensures event { Makes Stands self.old self.new (observe_event ∷ []) }
    {
        match self.sampling.phase() {
            Phase::Checking { .. } => self.finish_pass(),
            _ => self.void_pass(),
        }
    }

    // Ends a pass whose picks are all loaded.
    fn finish_pass(&mut self)
        requires phase { self.old.core.phase ≡ Phase.Checking (row_count self.old.core) }
        requires ticks { self.old.core.ticks < 2 ^ 40 }
        ensures core { self.new.core
            ≡ passed_core (record self.old.core { regions = self.new.core.regions }) }
        ensures cap { self.new.core.regions.cap ≡ self.old.core.regions.cap }
        ensures counts { self.new ≡ record self.old {
          core = passed_core (record self.old.core {
            regions = record self.old.core.regions {
              rows = raised self.old.bits self.old.core.regions.rows;
            };
          });
          checks = self.old.checks + row_count self.old.core;
          hits = self.old.hits + count_by (λ hit. hit) self.old.bits;
        } }
        ensures event { Makes Stands self.old self.new (observe_event ∷ []) }
    {
        self.clock.tick();
        let next = self.clock.next_phase(self.attrs.aggr);
        let sampling = &mut *self.sampling;
        let hits = sampling.finish(next);
        self.totals.add(sampling.regions().len(), hits);
    }

    // Ends a void pass.
    fn void_pass(&mut self)
        requires phase { self.old.core.phase ≡ Phase.Void }
        requires ticks { self.old.core.ticks < 2 ^ 40 }
        ensures void { self.new ≡ record self.old { core = passed_core self.old.core } }
        ensures event { Makes Stands self.old self.new (observe_event ∷ []) }
    {
        self.clock.tick();
        self.sampling.leave(self.clock.next_phase(self.attrs.aggr));
    }
}
