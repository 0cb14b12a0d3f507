ghost use Rattle.std.specs.Prelude.{◌≡◌, ◌+◌, ◌%◌, ◌^◌, ◌≤◌, ◌<◌, ◌++◌, ◌∷◌, [], ℕ, List, Some, suc, false, length, take, slice_get, slice_set, replicate, IfOk, vec_len, vec_capacity};
ghost use Rattle.std.specs.List.{AllByRecursion, count_by, list_any};
ghost use Rattle.rand_core.specs.Stream.{Stream};
ghost use Rattle.sampler.specs.Draws.{drawn, drawn_rest};
ghost use Rattle.sampler.specs.Pick.{ArePlacesOf, PickList, picks_of};
ghost use Rattle.sampler.specs.Loaded.{loaded_bits, loaded_hits};

use crate::Marks;
use crate::places::Places;
use crate::renewal::{RENEWAL, remainder, renew_at};
use rand_core::Rng;
use reciprocal::Reciprocal;
use region_list::Regions;
use std::alloc::{AllocError, Global};
use std::marker::Model;

/// The pages that a pass checks, one for each row, each with a bit that says whether its check was
/// a hit. There is room for a fixed number of them.
#[derive(Drop)]
pub struct Picks {
    pages: Vec<u32>,
    bits: Vec<bool>,
    cap: u32,
    // Reciprocals of the rows' sizes, as they were at the last renewal.
    reciprocals: Vec<Reciprocal>,
    // The passes that were prepared since then, fewer than `RENEWAL`.
    passes: u32,
}

impl Model for Picks {
    ghost use Rattle.std.specs.Prelude.{vec_capacity, vec_len};
    ghost use Rattle.sampler.specs.Pick.{PickList, IsPickList};

    ghost Value = { PickList };

    ghost view = { λ p. record { pages = p.pages.items; bits = p.bits.items; cap = p.cap } };

    ghost invariant = { λ p. IsPickList p.pages.items p.bits.items p.cap
        (vec_capacity p.pages) (vec_capacity p.bits) (vec_len p.reciprocals) p.passes };
}

impl Picks {
    /// No picks, with room for `cap` of them. Takes memory, and no other call does; the error is that
    /// memory ran out.
    pub fn new(alloc: Global, cap: u32) -> Result<Picks, AllocError>
        ensures { IfOk result (λ p. p ≡ record { pages = []; bits = []; cap = cap }) }
    {
        let pages = Vec::with_capacity(alloc, cap as usize)?;
        let bits = Vec::with_capacity(alloc, cap as usize)?;
        let reciprocals = vec![in alloc; Reciprocal::of(1); cap as usize]?;
        Ok(Picks {
            pages,
            bits,
            cap,
            reciprocals,
            passes: 0,
        })
    }

    /// For how many picks there is room.
    pub fn cap(&self) -> u32
        ensures { result ≡ self.now.cap }
    {
        self.cap
    }

    /// The number of picks. Each has a bit.
    pub fn len(&self) -> u32
        ensures len { result ≡ length self.now.pages }
        ensures bits { result ≡ length self.now.bits }
        ensures room { result ≤ self.now.cap }
    {
        self.pages.len() as u32
    }

    /// The pages of the picks, in order.
    pub fn pages(&self) -> &[u32]
        ensures { result.now ≡ self.now.pages }
    {
        &self.pages
    }

    /// The number of the page of pick `k`, which is below the number of picks.
    pub fn page(&self, k: u32) -> u32
        requires { k < length self.now.pages }
        ensures { slice_get self.now.pages k ≡ Some result }
    {
        self.pages[k as usize]
    }

    /// Whether the check of pick `k`, which is below the number of picks, was a hit.
    pub fn hit(&self, k: u32) -> bool
        requires { k < length self.now.pages }
        ensures { slice_get self.now.bits k ≡ Some result }
    {
        self.bits[k as usize]
    }

    /// Whether the check of each pick was a hit, in their order.
    pub fn bits(&self) -> &[bool]
        ensures { result.now ≡ self.now.bits }
    {
        &self.bits
    }

    // Whether a check was a hit.
    pub(crate) fn any_hit(&self) -> bool
        ensures any { result ≡ list_any (λ hit. hit) self.now.bits }
        ensures each { length self.now.bits ≡ length self.now.pages }
    {
        any_of(&self.bits)
    }

    /// Records whether the check of pick `k`, which is below the number of picks, was a hit.
    pub fn set(&mut self, k: u32, hit: bool)
        requires { k < length self.old.pages }
        ensures bits { self.new ≡ record self.old { bits = slice_set self.old.bits k hit } }
        ensures fits { k + 1 < 2 ^ 32 }
    {
        self.bits[k as usize] = hit;
    }

    /// Records the checks of all picks, with a result for each, and returns how many are hits.
    pub fn set_all(&mut self, hits: &[bool]) -> u32
        requires { length hits.now ≡ length self.old.pages }
        ensures bits { self.new ≡ record self.old { bits = hits.now } }
        ensures hits { result ≡ count_by (λ hit. hit) hits.now }
    {
        self.bits.copy_from_slice(hits);
        hits_in(hits)
    }

    /// Records the checks of the `count` picks that begin with pick `from`, each with the mark of its page
    /// as its result, and returns how many are hits. There are at least `from + count` picks, and each of
    /// their pages has a mark.
    pub fn load<M: Marks + Copy>(&mut self, from: u32, count: u32, marks: M) -> u32
        requires within { from + count ≤ length self.old.pages }
        requires marks { AllByRecursion (λ p. p < length (M.marks_of marks)) self.old.pages }
        ensures bits { self.new
            ≡ record self.old {
              bits = loaded_bits (M.marks_of marks) self.old.pages from count self.old.bits;
            } }
        ensures hits { result ≡ loaded_hits (M.marks_of marks) self.old.pages from count }
        ensures few { result ≤ count }
        ensures fits { from + count < 2 ^ 32 }
    {
        load_bits(&self.pages, &mut self.bits, from, count, marks)
    }
}

// Sets the bits of the `count` picks that begin with pick `from` to the marks of their pages, and returns
// how many are true. It is kept apart, so that its loop has the registers.
#[inline(never)]
fn load_bits<M: Marks + Copy>(
    pages: &[u32],
    bits: &mut [bool],
    from: u32,
    count: u32,
    marks: M,
) -> u32
    requires within { from + count ≤ length pages.now }
    requires small { length pages.now < 2 ^ 32 }
    requires each { length bits.old ≡ length pages.now }
    requires marks { AllByRecursion (λ p. p < length (M.marks_of marks)) pages.now }
    ensures len { length bits.new ≡ length bits.old }
    ensures bits { bits.new ≡ loaded_bits (M.marks_of marks) pages.now from count bits.old }
    ensures hits { result ≡ loaded_hits (M.marks_of marks) pages.now from count }
    ensures few { result ≤ count }
{
    let mut hits = 0;
    for index in from..from + count {
        let hit = marks.is_marked(pages[index as usize]);
        bits[index as usize] = hit;
        hits += u32::from(hit);
    }
    hits
}

/// Picks a page of each row by the next random words of a source, one for each row: of row `i` the page
/// `start + word i mod pages`. No check is a hit so far. There is room for as many picks as rows. One loop
/// draws and picks, so that the processor does both at once.
pub fn draw_picks<R: Rng>(regions: &Regions, source: &mut R, picks: &mut Picks)
    requires { length regions.now.rows ≤ picks.old.cap }
    ensures picks { picks.new
        ≡ record picks.old {
          pages = picks_of regions.now.rows
              (drawn (length regions.now.rows) (R.stream source.old));
          bits = replicate (length regions.now.rows) false;
        } }
    ensures rest { R.stream source.new
        ≡ drawn_rest (length regions.now.rows) (R.stream source.old) }
    ensures each { length (drawn (length regions.now.rows) (R.stream source.old))
        ≡ length regions.now.rows }
{
    picks.passes = (picks.passes + 1) % RENEWAL;
    renew_at(picks.passes, regions, &mut picks.reciprocals);
    set_count(&mut picks.pages, regions.len());
    pick_drawn(
        regions,
        Places::of(regions, &picks.reciprocals),
        source,
        &mut picks.pages,
    );
    clear_bits(&mut picks.bits, regions.len());
}

/// Picks a page of each row by the words that are given, one for each row: of row `i` the page
/// `start + word i mod pages`. No check is a hit so far. There is room for as many picks as rows.
pub fn set_picks(regions: &Regions, words: &[u32], picks: &mut Picks)
    requires words { length words.now ≡ length regions.now.rows }
    requires room { length regions.now.rows ≤ picks.old.cap }
    ensures { picks.new
        ≡ record picks.old {
          pages = picks_of regions.now.rows words.now;
          bits = replicate (length regions.now.rows) false;
        } }
{
    picks.passes = (picks.passes + 1) % RENEWAL;
    renew_at(picks.passes, regions, &mut picks.reciprocals);
    set_count(&mut picks.pages, regions.len());
    pick_given(
        regions,
        Places::of(regions, &picks.reciprocals),
        words,
        &mut picks.pages,
    );
    clear_bits(&mut picks.bits, regions.len());
}

// Picks a page of each row by the words that are given.
fn pick_given(regions: &Regions, places: Places<'_>, words: &[u32], pages: &mut [u32])
    requires places { ArePlacesOf regions.now.rows places.starts.now places.sizes.now }
    requires words { length words.now ≡ length regions.now.rows }
    requires reciprocals { length regions.now.rows ≤ length places.reciprocals.now }
    requires each { length pages.old ≡ length regions.now.rows }
    ensures { pages.new ≡ picks_of regions.now.rows words.now }
{
    for index in 0..regions.len() {
        let page = pick_at(regions, places, index, words[index as usize]);
        pages[index as usize] = page;
    }
}

// The page that a word picks of the row with this index, which is below the number of rows.
fn pick_at(regions: &Regions, places: Places<'_>, index: u32, word: u32) -> u32
    requires places { ArePlacesOf regions.now.rows places.starts.now places.sizes.now }
    requires reciprocals { length regions.now.rows ≤ length places.reciprocals.now }
    requires index { index < length regions.now.rows }
    ensures page { (words : List ℕ) → slice_get words index ≡ Some word
        → picks_of (take (suc index) regions.now.rows) words
        ≡ picks_of (take index regions.now.rows) words ++ result ∷ [] }
    ensures few { length regions.now.rows < 2 ^ 32 }
{
    // For its clauses alone: the row has a page, and ends below page 2^32.
    let _row = regions.row(index);
    let place = index as usize;
    let offset = remainder(word, places.sizes[place], &places.reciprocals[place]);
    places.starts[place] + offset
}

// Picks a page of each row by the next random words. It is kept apart, so that its loop has the registers.
#[inline(never)]
fn pick_drawn<R: Rng>(regions: &Regions, places: Places<'_>, source: &mut R, pages: &mut [u32])
    requires places { ArePlacesOf regions.now.rows places.starts.now places.sizes.now }
    requires reciprocals { length regions.now.rows ≤ length places.reciprocals.now }
    requires each { length pages.old ≡ length regions.now.rows }
    ensures pages { pages.new
        ≡ picks_of regions.now.rows (drawn (length regions.now.rows) (R.stream source.old)) }
    ensures rest { R.stream source.new
        ≡ drawn_rest (length regions.now.rows) (R.stream source.old) }
{
    let rows = regions.len();
    'fours: for four in 0..rows / 4 {
        pick_four(regions, places, source, 4 * four, pages);
    }
    'others: for index in rows / 4 * 4..rows {
        let word = source.next_u32();
        pages[index as usize] = pick_at(regions, places, index, word);
    }
}

// Picks a page of each of four rows, the first of which has the index `from`. All four words are drawn before
// the first page is stored: a store after each word would send the state of the source through memory, which
// takes as long as the word.
#[inline]
fn pick_four<R: Rng>(
    regions: &Regions,
    places: Places<'_>,
    source: &mut R,
    from: u32,
    pages: &mut [u32],
)
    requires places { ArePlacesOf regions.now.rows places.starts.now places.sizes.now }
    requires reciprocals { length regions.now.rows ≤ length places.reciprocals.now }
    requires within { from + 4 ≤ length regions.now.rows }
    requires each { length pages.old ≡ length regions.now.rows }
    ensures pages { (s : Stream) → R.stream source.old ≡ drawn_rest from s
        → take from pages.old
        ≡ picks_of (take from regions.now.rows) (drawn (length regions.now.rows) s)
        → take (from + 4) pages.new
        ≡ picks_of (take (from + 4) regions.now.rows) (drawn (length regions.now.rows) s) }
    ensures rest { R.stream source.new ≡ drawn_rest 4 (R.stream source.old) }
    ensures each { length pages.new ≡ length pages.old }
{
    let first = source.next_u32();
    let second = source.next_u32();
    let third = source.next_u32();
    let fourth = source.next_u32();
    let index = from as usize;
    pages[index] = pick_at(regions, places, from, first);
    pages[index + 1] = pick_at(regions, places, from + 1, second);
    pages[index + 2] = pick_at(regions, places, from + 2, third);
    pages[index + 3] = pick_at(regions, places, from + 3, fourth);
}

// Makes the list one of `count` pages, whatever they are.
fn set_count(pages: &mut Vec<u32>, count: u32)
    requires { count ≤ vec_capacity pages.old }
    ensures len { vec_len pages.new ≡ count }
    ensures capacity { vec_capacity pages.new ≡ vec_capacity pages.old }
{
    pages.truncate(count as usize);
    for _ in pages.len()..count as usize {
        pages.push_reserved(0);
    }
}

// Makes the list `count` bits that are all false.
fn clear_bits(bits: &mut Vec<bool>, count: u32)
    requires { count ≤ vec_capacity bits.old }
    ensures bits { bits.new.items ≡ replicate count false }
    ensures capacity { vec_capacity bits.new ≡ vec_capacity bits.old }
{
    // Mostly there are as many bits already, and to fill them is fastest.
    bits.truncate(count as usize);
    bits.fill(false);
    for _ in bits.len()..count as usize {
        bits.push_reserved(false);
    }
}

// How many of these are hits.
fn hits_in(bits: &[bool]) -> u32
    requires { length bits.now < 2 ^ 32 }
    ensures { result ≡ count_by (λ hit. hit) bits.now }
{
    let mut hits = 0;
    for bit in bits {
        hits += u32::from(*bit);
    }
    hits
}

// Whether one of these is true. All are looked at, so that it takes a few instructions for many of them.
fn any_of(bits: &[bool]) -> bool
    ensures { result ≡ list_any (λ bit. bit) bits.now }
{
    let mut any = false;
    for bit in bits {
        any = any | *bit;
    }
    any
}
