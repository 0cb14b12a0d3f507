ghost use Rattle.std.specs.Prelude.{◌≡◌, ◌≢◌, ◌≤◌, ◌<◌, [], ◌∷◌, ◌++◌, length, filter, slice_get, All, IfOk, IfSome};
ghost use Rattle.priority.specs.declared.scoring.TheConstants.{MAX_SCORE};
ghost use Rattle.priority.specs.Candidates.{IsCandidate, DistinctStarts};
ghost use Rattle.priority.specs.Order.{InPriority, in_order, is_before};
ghost use Rattle.priority.specs.Share.{has_share, with_shares};
ghost use Rattle.priority.specs.Chosen.{leaves_pages, lowest_of, taken_of};
ghost use Rattle.priority.specs.Best.{IsBest, IsCertified};

use crate::choice::{Chosen, choose_among};
use std::alloc::{AllocError, Global};
use std::marker::Model;

/// A row that a scheme may be applied to, with its priority.
#[derive(Clone, Copy, Debug, PartialEq, Eq)]
pub struct Candidate {
    /// The target of the row.
    pub target: u32,
    /// The number of its first page.
    pub start: u32,
    /// Its score, at most [`MAX_SCORE`](crate::MAX_SCORE).
    pub score: u32,
    /// How many of its pages pass the filters of the scheme, at least 1.
    pub passing: u32,
    /// How many of these pages are taken.
    pub share: u32,
}

impl Candidate {
    // Whether it comes before the other one in priority order. All tests are made, since a branch on each
    // would often be predicted wrongly.
    pub(crate) fn is_before(&self, other: &Candidate) -> bool
        ensures { result ≡ is_before self.now other.now }
    {
        (self.score > other.score)
            | ((self.score == other.score)
                & ((self.target < other.target)
                    | ((self.target == other.target) & (self.start < other.start))))
    }
}

/// The candidates of a scheme: a list with a fixed capacity. No two start at the same page.
#[derive(Drop)]
pub struct Candidates {
    items: Vec<Candidate>,
    cap: u32,
}

impl Model for Candidates {
    ghost use Rattle.std.specs.Prelude.{vec_capacity};
    ghost use Rattle.priority.specs.Candidates.{CandidateList, IsCandidateList};

    ghost Value = { CandidateList };

    ghost view = { λ c. record { list = c.items.items; cap = c.cap } };

    ghost invariant = { λ c. IsCandidateList c.items.items c.cap (vec_capacity c.items) };
}

impl Candidates {
    /// The empty list with room for `cap` candidates, or an error when out of memory. No other call
    /// takes memory.
    pub fn new(alloc: Global, cap: u32) -> Result<Candidates, AllocError>
        ensures { IfOk result (λ c. c ≡ record { list = []; cap = cap }) }
    {
        let items = Vec::with_capacity(alloc, cap as usize)?;
        Ok(Candidates { items, cap })
    }

    /// The number of candidates for which there is room.
    pub fn cap(&self) -> u32
        ensures { result ≡ self.now.cap }
    {
        self.cap
    }

    /// The number of candidates. Its clauses also say what holds of every such list.
    pub fn len(&self) -> u32
        ensures len { result ≡ length self.now.list }
        ensures room { result ≤ self.now.cap }
        ensures distinct { DistinctStarts self.now.list }
        ensures each { All IsCandidate self.now.list }
    {
        self.items.len() as u32
    }

    /// The candidate with this index, which is below the number of candidates.
    pub fn get(&self, index: u32) -> Candidate
        requires { index < length self.now.list }
        ensures { slice_get self.now.list index ≡ Some result }
    {
        self.items[index as usize]
    }

    /// The candidates in the order of the list.
    pub fn as_slice(&self) -> &[Candidate]
        ensures { result.now ≡ self.now.list }
    {
        &self.items
    }

    /// Empties the list. The capacity stays.
    pub fn clear(&mut self)
        ensures { self.new ≡ record self.old { list = [] } }
    {
        self.items.clear();
    }

    /// Appends a candidate, of which no page is taken yet. There is room for it, its score is at
    /// most [`MAX_SCORE`](crate::MAX_SCORE), at least one of its pages passes, and no candidate
    /// starts at the same page.
    pub fn push(&mut self, target: u32, start: u32, score: u32, passing: u32)
        requires room { length self.old.list < self.old.cap }
        requires score { score ≤ MAX_SCORE }
        requires passing { 1 ≤ passing }
        requires distinct { All (λ c. c.start ≢ start) self.old.list }
        ensures { self.new ≡ record self.old {
          list = self.old.list ++ record {
            target = target;
            start = start;
            score = score;
            passing = passing;
            share = 0;
          } ∷ [];
        } }
    {
        self.items.push_reserved(Candidate {
            target,
            start,
            score,
            passing,
            share: 0,
        });
    }

    /// Chooses which passing pages are taken: at most `left` of them, which is what is left of the
    /// quota, or all if there is no quota (`None`). In priority order, which is the greater score
    /// first, then the smaller target, then the smaller start, the share of each candidate is as many
    /// of its passing pages as those before it leave; shares of an earlier choice do not count. The
    /// list then has the candidates of which a page is taken, in priority order. No other choice has a
    /// greater sum of the scores of its pages. Takes no memory. The order is this project's own rule.
    pub fn choose(&mut self, left: Option<u64>) -> Chosen
        ensures list { self.new.list ≡ filter has_share (in_order (with_shares left self.old.list)) }
        ensures order { InPriority self.new.list }
        ensures best { IsBest left (with_shares left self.old.list) }
        ensures certificate { IsCertified left (with_shares left self.old.list) }
        ensures distinct { DistinctStarts self.new.list }
        ensures len { length self.new.list ≤ length self.old.list }
        ensures cap { self.new.cap ≡ self.old.cap }
        ensures each { All (λ c. (1 ≤ c.share) × (c.share ≤ c.passing)) self.new.list }
        ensures within { IfSome left (λ most. taken_of self.new.list ≤ most) }
        ensures taken { result.taken ≡ taken_of (with_shares left self.old.list) }
        ensures lowest { result.lowest ≡ lowest_of (with_shares left self.old.list) }
        ensures exceeds { result.exceeds ≡ leaves_pages (with_shares left self.old.list) }
    {
        choose_among(&mut self.items, left)
    }
}
