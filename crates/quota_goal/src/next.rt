ghost use Rattle.std.specs.Prelude.{◌≡◌, ◌≤◌};
ghost use Rattle.quota_goal.specs.Next.{next, part};

use crate::Goal;

/// The bytes of a quota after a score. Below the goal's target the bytes rise by the share of the target
/// that is missing, and above it they fall by the share that is too much, at most to 0. Then they are held
/// within `goal.low` and `goal.high`, and at most `top`. The target is at least 1, and `low` at most `high`.
pub fn next_bytes(goal: &Goal, bytes: u64, top: u64, score: u32) -> u64
    requires target { 1 ≤ goal.now.target }
    requires bounds { goal.now.low ≤ goal.now.high }
    ensures exact { result ≡ next goal.now bytes top score }
{
    let Goal {
        target,
        low,
        high,
        ..
    } = *goal;
    let asked = if score < target {
        u128::from(bytes) + part(bytes, target - score, target)
    } else {
        u128::from(bytes) - part(bytes, (score - target).min(target), target)
    };
    asked
        .min(u128::from(high))
        .max(u128::from(low))
        .min(u128::from(top)) as u64
}

// This share of the bytes, of at most all of them, rounded down.
#[tactic(auto, using(crate::proofs::Bounding::part_most))]
fn part(bytes: u64, difference: u32, target: u32) -> u128
    requires some { 1 ≤ target }
    requires most { difference ≤ target }
    ensures exact { result ≡ part bytes difference target }
    ensures most { result ≤ bytes }
{
    u128::from(bytes) * u128::from(difference) / u128::from(target)
}
