// Dropping the candidates that come too late to get a share, so that only the others are sorted.
ghost use Rattle.std.specs.Prelude.{◌≡◌, ◌≤◌, ◌<◌, ◌^◌, ℕ, length, All, IfSome, Some, sum};
ghost use Rattle.std.specs.Vec.{vec_capacity};
ghost use Rattle.priority.specs.Candidates.{AreCandidates, IsCandidate};
ghost use Rattle.priority.specs.Chosen.{leaves_pages};
ghost use Rattle.priority.specs.Histogram.{sum_from};
ghost use Rattle.priority.specs.Kept.{SameChoice, later_of, passing_from, passing_of_all, up_to};
ghost use Rattle.priority.specs.Share.{with_shares};

use crate::{Candidate, Histogram, MAX_SCORE};

// The number of scores.
const SCORES: usize = MAX_SCORE as usize + 1;

// Drops candidates that get no share of what is left, and returns whether a passing page of any
// candidate is not taken.
pub(crate) fn drop_late(items: &mut Vec<Candidate>, left: u64) -> bool
    requires few { length items.old.items < 2 ^ 32 }
    requires sound { AreCandidates items.old.items }
    ensures same { SameChoice (Some left) items.old.items items.new.items }
    ensures exceeds { result ≡ leaves_pages (with_shares (Some left) items.old.items) }
    ensures sound { AreCandidates items.new.items }
    ensures len { length items.new.items ≤ length items.old.items }
    ensures capacity { vec_capacity items.new ≡ vec_capacity items.old }
{
    if left == 0 {
        let exceeds = !items.is_empty();
        items.clear();
        return exceeds;
    }
    let sums = passing_by_score(items);
    let exceeds = left < sums.from(0);
    let Some(last) = last_within(items, &sums, left) else {
        return exceeds;
    };
    keep_up_to(items, &last);
    exceeds
}

// Drops the candidates that come after this one. Mostly the score decides: so each takes one test, and only
// those that are left take the others. No branch depends on a test, which would often be predicted wrongly.
fn keep_up_to(items: &mut Vec<Candidate>, last: &Candidate)
    ensures items { items.new.items ≡ up_to last.now items.old.items }
    ensures len { length items.new.items ≤ length items.old.items }
    ensures capacity { vec_capacity items.new ≡ vec_capacity items.old }
{
    items.retain(|candidate| candidate.score >= last.score);
    items.retain(|candidate| !last.is_before(candidate));
}

// The passing pages of the candidates of each score.
fn passing_by_score(items: &[Candidate]) -> Histogram<SCORES>
    requires few { length items.now < 2 ^ 32 }
    requires each { All IsCandidate items.now }
    ensures { (score : ℕ) → sum_from result score ≡ passing_from items.now score }
{
    let mut sums = Histogram::new();
    for candidate in items {
        sums.add(candidate.score, u64::from(candidate.passing));
    }
    sums
}

// A candidate such that it and those before it have as many passing pages as are left, so that those after
// it get no share. It has the greatest score for which there is one, and is the latest of the first
// candidates of this score that have enough pages: where candidates were pushed by rising target and
// start, it is the last one with a share. If none is found, nothing can be dropped.
fn last_within(items: &[Candidate], sums: &Histogram<SCORES>, left: u64) -> Option<Candidate>
    requires few { length items.now < 2 ^ 32 }
    requires sums { (score : ℕ) → sum_from sums.now score ≡ passing_from items.now score }
    ensures { IfSome result (λ last. left ≤ passing_of_all (up_to last items.now)) }
{
    let cut = sums.cut(left)?;
    let room = left - sums.from(cut + 1);
    let mut last = None;
    let mut used = 0;
    for candidate in items {
        if candidate.score == cut {
            used += u64::from(candidate.passing);
            let later = later(last, candidate);
            if used >= room {
                return Some(later);
            }
            last = Some(later);
        }
    }
    None
}

// Of a candidate that may be there and another, the one that comes later in priority order.
fn later(last: Option<Candidate>, candidate: &Candidate) -> Candidate
    ensures { result ≡ later_of last candidate.now }
{
    match last {
        Some(last) if candidate.is_before(&last) => last,
        _ => *candidate,
    }
}
