// Names of receipts, and marks of pages, which passes set.
ghost use Rattle.std.specs.Prelude.{◌≡◌, ℕ, ◌+◌, ◌≤◌, ◌<◌, ◌==◌, ◌||◌, ◌&&◌, All, List, false, length, not, IfOk, slice_index_or, if◌then◌else◌};
ghost use Rattle.std.specs.List.{list_any};
ghost use Rattle.damon_control.specs.declared.reader.TheConstants.{MAX_BYTES};
ghost use Rattle.run_journal.specs.declared.entry.Receipt.{Receipt as receipt};
ghost use Rattle.journal_check.specs.Ahead.{IsUnset, NamesMore, ShowsTag, named_by_none, receipts_of};
ghost use Rattle.journal_check.specs.Folding.{open_hits};
ghost use Rattle.journal_text.specs.SeenLine.{is_receipt};
ghost use Rattle.page_words.specs.PassSteps.{load_steps};

use crate::receipts::by_tag::SeenByTag;
use crate::receipts::list::SeenList;
use page_bits::BitSet;
use sampler::Picks;
use std::alloc::{AllocError, Global};

// The receipts that name no pass, by their index. Allocates.
pub(crate) fn named_by_none(alloc: Global, receipts: &SeenList) -> Result<BitSet, AllocError>
    requires few { length receipts.now ≤ MAX_BYTES }
    ensures { IfOk result (λ named. named ≡ named_by_none receipts.now) }
{
    let mut named = BitSet::none(alloc, receipts.len() as u32)?;
    for index in 0..receipts.len() {
        named.put(index as u32, receipts.get(index).1.tag == 0);
    }
    Ok(named)
}

// Names the receipts with the tag `pass` whose pages are picks. If no receipt has this tag, the
// picks are not read.
pub(crate) fn name_due(
    named: &mut BitSet,
    marked: &mut BitSet,
    seen: &SeenByTag,
    pass: u64,
    picks: &Picks,
)
    requires count { length named.old ≡ length seen.now }
    requires below { All (λ x. x.1.page < length marked.old) seen.now }
    requires early { pass ≤ MAX_BYTES + 1 }
    requires picks { All (λ p. p < length marked.old) picks.now.pages }
    requires unmarked { IsUnset marked.old }
    ensures named { NamesMore pass picks.now.pages seen.now named.old named.new }
    ensures unmarked { IsUnset marked.new }
    ensures names { length named.new ≡ length named.old }
    ensures table { length marked.new ≡ length marked.old }
{
    let first = seen.first(pass);
    if first == seen.len() {
        return;
    }
    set_picks(marked, picks, true);
    name_marked(named, marked, seen, pass);
    set_picks(marked, picks, false);
}

// Puts the pages of picks into a set, or takes them out of it.
fn set_picks(table: &mut BitSet, picks: &Picks, value: bool)
    requires { All (λ p. p < length table.old) picks.now.pages }
    ensures each { (page : ℕ) → page < length table.old → slice_index_or table.new page false
        ≡ (if list_any (λ p. p == page) picks.now.pages then value
        else slice_index_or table.old page false) }
    ensures len { length table.new ≡ length table.old }
{
    for pick in 0..picks.len() {
        table.put(picks.page(pick), value);
    }
}

// Puts the pages of the receipts with this tag into a set, or takes them out of it.
pub(crate) fn set_pages(table: &mut BitSet, seen: &SeenByTag, tag: u64, value: bool)
    requires below { All (λ x. x.1.page < length table.old) seen.now }
    requires early { tag ≤ MAX_BYTES + 1 }
    ensures each { (page : ℕ) → page < length table.old → slice_index_or table.new page false
        ≡ (if list_any (is_receipt page tag) (receipts_of seen.now) then value
        else slice_index_or table.old page false) }
    ensures len { length table.new ≡ length table.old }
{
    let mut index = seen.first(tag);
    'receipts: while index < seen.len() {
        table.put(seen.get(index).1.page, value);
        index = seen.next(index);
    }
}

// Sets the entries of the receipts with the tag `pass` whose pages are marked.
fn name_marked(named: &mut BitSet, marked: &BitSet, seen: &SeenByTag, pass: u64)
    requires count { length named.old ≡ length seen.now }
    requires below { All (λ x. x.1.page < length marked.now) seen.now }
    requires early { pass ≤ MAX_BYTES + 1 }
    ensures each { (i : ℕ) (d : ℕ × receipt) → i < length seen.now
        → slice_index_or named.new i false ≡ (slice_index_or named.old i false
        || ((pass == (slice_index_or seen.now i d).1.tag)
        && slice_index_or marked.now (slice_index_or seen.now i d).1.page false)) }
    ensures len { length named.new ≡ length named.old }
{
    let mut index = seen.first(pass);
    'receipts: while index < named.len() as usize {
        let place = index as u32;
        let is_named = named.has(place) | marked.has(seen.get(index).1.page);
        named.put(place, is_named);
        index = seen.next(index);
    }
}

// How many of these results of picks are hits on pages without a mark.
pub(crate) fn hits_without_mark(marked: &BitSet, picks: &Picks, bits: &[bool]) -> u64
    requires picks { All (λ p. p < length marked.now) picks.now.pages }
    requires each { length bits.now ≡ length picks.now.pages }
    ensures { (pass : ℕ) (xs : List (ℕ × receipt)) → ShowsTag pass xs marked.now
        → result ≡ open_hits (receipts_of xs) (load_steps pass picks.now.pages bits.now) }
{
    let mut open = 0;
    for k in 0..picks.len() {
        open += u64::from(is_open(marked, picks.page(k), bits[k as usize]));
    }
    open
}

// Whether the result of the pick of a page is a hit, and the page has no mark.
fn is_open(marked: &BitSet, page: u32, hit: bool) -> bool
    requires { page < length marked.now }
    ensures { result ≡ (hit && not (slice_index_or marked.now page false)) }
{
    hit && !marked.has(page)
}
