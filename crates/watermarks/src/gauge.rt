ghost use Rattle.std.specs.Prelude.{◌≡◌, ℕ, List, [], ◌∷◌, ◌++◌};
ghost use Rattle.watermarks.specs.Active.{after_metric, is_active};
ghost use Rattle.watermarks.specs.Gauge.{StandsFor};

use crate::metrics_decide_in_turn;
use damon_types::Marks;
use std::marker::Model;

/// Whether a slot is active, by the watermarks of its scheme and the values of the metric since the
/// scheme was set. Without watermarks it is always active.
#[derive(Clone, Copy, Debug, PartialEq, Eq)]
pub struct Gauge {
    marks: Option<Marks>,
    active: bool,
}

impl Model for Gauge {
    ghost use Rattle.watermarks.specs.Gauge.{GaugeValue};

    ghost Value = { GaugeValue };

    ghost view = { λ g. record { marks = g.marks; active = g.active } };

    ghost inverse = { λ g. record { marks = g.marks; active = g.active } };
}

impl Gauge {
    /// The gauge of a slot as its scheme is set: inactive with watermarks, active without.
    pub fn new(marks: Option<Marks>) -> Gauge
        ensures { result ≡ record { marks = marks; active = is_active marks [] } }
    {
        Gauge {
            marks,
            active: marks.is_none(),
        }
    }

    /// Takes the next value of the metric. With watermarks, a value above `high` or below `low`
    /// makes the slot inactive, one from `low` to below `mid` makes it active, and one from `mid`
    /// to `high`, both included, leaves it as it is.
    pub fn metric(&mut self, value: u32)
        ensures gauge { self.new ≡ record self.old {
          active = after_metric self.old.marks self.old.active value;
        } }
        ensures stands { (metrics : List ℕ)
            → StandsFor self.old metrics → StandsFor self.new (metrics ++ value ∷ []) }
    {
        // For its clauses alone: one more metric after a list of them.
        metrics_decide_in_turn();
        let Some(Marks { high, mid, low }) = self.marks else {
            return;
        };
        if !(mid..=high).contains(&value) {
            self.active = (low..mid).contains(&value);
        }
    }

    /// Whether the slot is active.
    pub fn active(&self) -> bool
        ensures { result ≡ self.now.active }
    {
        self.active
    }
}
