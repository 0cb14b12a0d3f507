// The goals of quotas that words say.
ghost use Rattle.std.specs.Prelude.{◌≡◌, ◌≤◌, IfSome, map};
ghost use Rattle.damon_types.specs.declared.scheme.TheConstants.{MAX_SLOT};
ghost use Rattle.line_text.specs.Number.{number};
ghost use Rattle.quota_goal.specs.Goals.{IsGoal};
ghost use Rattle.damon_app.specs.GoalWords.{goal_of, goals_of, in_order, kind_of};

use damon_types::MAX_SLOT;
use line_text::{COLON, four_parts, read_number, read_number_32, split_front};
use quota_goal::{Goal, GoalKind, Goals, MAX_GOALS};

// The goals that 1 to 16 words say, one a word.
pub(crate) fn goals_of(words: &[&str]) -> Option<Goals>
    ensures { result ≡ goals_of (map (λ word. word.now) words.now) }
{
    if words.is_empty() || words.len() > MAX_GOALS {
        return None;
    }
    let mut goals = Goals::new();
    for word in words {
        goals.push(goal_of(word.as_bytes())?).ok()?;
    }
    Some(goals)
}

// The goal that a word says: `SLOT:KIND:TARGET:LOW:HIGH`.
fn goal_of(word: &[u8]) -> Option<Goal>
    ensures exact { result ≡ goal_of word.now }
    ensures within { IfSome result IsGoal }
{
    let (slot, fields) = split_front(word, COLON);
    let (kind, target, low, high) = four_parts(fields?, COLON)?;
    let slot = read_slot(slot)?;
    let kind = kind_of(kind)?;
    let target = read_number_32(target)?;
    let low = read_number(low, u64::MAX)?;
    let high = read_number(high, u64::MAX)?;
    in_order(Goal {
        slot,
        kind,
        target,
        low,
        high,
    })
}

// The number of a slot.
fn read_slot(word: &[u8]) -> Option<u8>
    ensures exact { result ≡ number MAX_SLOT word.now }
    ensures within { IfSome result (λ slot. slot ≤ MAX_SLOT) }
{
    let slot = read_number(word, u64::from(MAX_SLOT))?;
    Some(slot as u8)
}

// The kind of goals that a word names.
fn kind_of(word: &[u8]) -> Option<GoalKind>
    ensures { result ≡ kind_of word.now }
{
    if word == b"metric".as_slice() {
        Some(GoalKind::Metric)
    } else if word == b"hot".as_slice() {
        Some(GoalKind::Hot)
    } else if word == b"cold".as_slice() {
        Some(GoalKind::Cold)
    } else {
        None
    }
}

// The goal, if its target is at least 1 and its low bound at most its high bound.
fn in_order(goal: Goal) -> Option<Goal>
    requires { goal.slot ≤ MAX_SLOT }
    ensures exact { result ≡ in_order goal }
    ensures within { IfSome result IsGoal }
{
    if 1 <= goal.target && goal.low <= goal.high {
        Some(goal)
    } else {
        None
    }
}
