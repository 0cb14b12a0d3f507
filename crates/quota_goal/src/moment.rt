ghost use Rattle.std.specs.Prelude.{◌≡◌};
ghost use Rattle.quota_goal.specs.Moment.{score_of};

use crate::{GoalKind, Seen};

/// A moment at which goals are scored.
#[derive(Clone, Copy, Debug, PartialEq, Eq)]
pub enum Moment {
    /// A commit with this metric.
    Metric { value: u32 },
    /// An aggregation, whose report has these shares of hot and of cold pages.
    Seen { seen: Seen },
}

impl Moment {
    // The score of goals of a kind; `None` where they are not scored.
    pub(crate) fn score(&self, kind: GoalKind) -> Option<u32>
        ensures { result ≡ score_of kind self.now }
    {
        match *self {
            Moment::Metric { value } => match kind {
                GoalKind::Metric => Some(value),
                GoalKind::Hot => None,
                GoalKind::Cold => None,
            },
            Moment::Seen { seen } => match kind {
                GoalKind::Metric => None,
                GoalKind::Hot => Some(seen.hot),
                GoalKind::Cold => Some(seen.cold),
            },
        }
    }
}
