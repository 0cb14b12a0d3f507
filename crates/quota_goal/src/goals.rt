ghost use Rattle.std.specs.Prelude.{◌≡◌, ◌≤◌, ◌<◌, [], ◌∷◌, ◌++◌, length, IsOk, OnOk, OnErr, ◌↔◌};
ghost use Rattle.std.specs.List.{AllByRecursion};
ghost use Rattle.damon_types.specs.declared.scheme.TheConstants.{MAX_SLOT};
ghost use Rattle.quota_goal.specs.Goals.{IsGoal};

use std::marker::Model;

/// The most goals of a list.
pub const MAX_GOALS: usize = 16;

/// What the score of a goal is.
#[derive(Clone, Copy, Debug, PartialEq, Eq)]
pub enum GoalKind {
    /// The metric of a commit.
    Metric,
    /// The share of hot pages in a report, in thousandths.
    Hot,
    /// The share of cold pages in a report, in thousandths.
    Cold,
}

/// The score that a slot's quota is to reach, and the bounds of its bytes. Below the target the bytes rise,
/// above it they fall.
#[derive(Clone, Copy, Debug, PartialEq, Eq)]
pub struct Goal {
    /// The number of the slot, at most [`MAX_SLOT`](damon_types::MAX_SLOT).
    pub slot: u8,
    pub kind: GoalKind,
    /// The score to reach, at least 1.
    pub target: u32,
    /// The least bytes.
    pub low: u64,
    /// The most bytes, at least `low`.
    pub high: u64,
}

/// A list of goals holds [`MAX_GOALS`] already.
#[derive(Clone, Copy, Debug, PartialEq, Eq)]
pub struct Full;

/// A list of at most [`MAX_GOALS`] goals, each within its limits. Takes no memory.
#[derive(Debug, Drop)]
pub struct Goals {
    // Places after the last goal hold UNUSED.
    places: [Goal; MAX_GOALS],
    len: usize,
}

const UNUSED: Goal = Goal {
    slot: 0,
    kind: GoalKind::Metric,
    target: 1,
    low: 0,
    high: 0,
};

impl Model for Goals {
    ghost use Rattle.std.specs.Prelude.{List, take};
    ghost use Rattle.quota_goal.specs.declared.goals.Goal.{Goal};
    ghost use Rattle.quota_goal.specs.Kept.{AreGoals};

    ghost Value = { List Goal };

    ghost view = { λ g. take g.len g.places };

    ghost invariant = { λ g. AreGoals g.places g.len };
}

impl Goals {
    /// The empty list.
    pub fn new() -> Goals
        ensures { result ≡ [] }
    {
        Goals {
            places: [UNUSED; MAX_GOALS],
            len: 0,
        }
    }

    /// The goals in order.
    pub fn as_slice(&self) -> &[Goal]
        ensures items { result.now ≡ self.now }
        ensures most { length result.now ≤ MAX_GOALS }
        ensures each { AllByRecursion IsGoal result.now }
    {
        &self.places[..self.len]
    }

    /// Appends a goal, whose slot, target and bounds are within their limits. Fails exactly if the list
    /// holds [`MAX_GOALS`]; it is then unchanged.
    pub fn push(&mut self, goal: Goal) -> Result<(), Full>
        requires slot { goal.slot ≤ MAX_SLOT }
        requires target { 1 ≤ goal.target }
        requires bounds { goal.low ≤ goal.high }
        ensures room { IsOk result ↔ (length self.old < MAX_GOALS) }
        ensures ok { OnOk result (self.new ≡ self.old ++ goal ∷ []) }
        ensures full { OnErr result (self.new ≡ self.old) }
    {
        if self.len == MAX_GOALS {
            return Err(Full);
        }
        self.places[self.len] = goal;
        self.len += 1;
        Ok(())
    }
}
