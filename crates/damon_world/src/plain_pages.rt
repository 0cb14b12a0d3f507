ghost use Rattle.std.specs.Prelude.{◌≡◌, ◌+◌, ◌-◌, ◌*◌, ◌≤◌, ◌<◌, [], ℕ, true, false, if◌then◌else◌, length, replicate, slice_index, vec_capacity, IfOk};
ghost use Rattle.page_bits.specs.Bits.{bit_in};
ghost use Rattle.page_bits.specs.Runs.{in_run};
ghost use Rattle.sampler.specs.Loaded.{mark_of, next_picks};
ghost use Rattle.damon_types.specs.Space.{pages_of};
ghost use Rattle.damon_core.specs.After.{loaded_core};
ghost use Rattle.damon_core.specs.Event.{IsLoading, load_index};
ghost use Rattle.damon_core.specs.Makes.{Makes};
ghost use Rattle.damon_core.specs.Several.{loads};
ghost use Rattle.damon_core.specs.Stands.{Stands};
ghost use Rattle.damon_core.specs.State.{row_count};
ghost use Rattle.damon_world.specs.Pages.{AreBitsCleared, AreCleared, AreTouched, HaveBits, HaveRoomForBits, is_picked, marks_of};

use damon_core::Monitor;
use page_bits::{LastWord, WORD, clear_bit, is_bit_set, put_bits_of_run, set_bit};
use sampler::{Marks, Picks};
use std::alloc::{AllocError, Global};
use std::marker::Model;

/// The pages of one thread: the mark of each, which says whether it was touched since it was cleared last, or
/// ever; and the tag of each, if tags are kept: the pass that cleared it last, 0 if none did.
///
/// A mark takes one bit. Those of a million pages are 128 KB, which stay within the nearest caches. The tags
/// of as many pages are 8 MB, and each clear would wait for memory; so they are kept only for who asks for
/// them.
///
/// The marks of a sweep are set when marks are cleared or loaded next. One run of swept pages waits until
/// then: a sweep that overlaps or touches it joins it, and any other has its marks set first and waits in its
/// place. No mark is written before the first one is set or cleared, so the marks of pages that nobody checks
/// take no memory of the machine.
#[derive(Drop)]
pub struct PlainPages {
    pages: u32,
    // The marks, or none as long as no mark was written. Those of the swept pages may not be set yet. The
    // room is taken once.
    marks: Vec<u64>,
    swept: Swept,
    // Empty if no tags are kept.
    tags: Vec<u64>,
}

impl Model for PlainPages {
    ghost use Rattle.std.specs.Prelude.{vec_capacity};
    ghost use Rattle.damon_world.specs.Pages.{IsStored, PagesView, marks_of};

    ghost Value = { PagesView };

    ghost view = { λ p. record {
      marks = marks_of p.pages p.marks.items p.swept.from p.swept.to;
      tags = p.tags.items;
    } };

    ghost invariant = { λ p.
        IsStored p.pages p.marks.items (vec_capacity p.marks) p.swept.from p.swept.to p.tags.items };
}

// The pages from `from` to before `to`.
#[derive(Clone, Copy)]
struct Swept {
    from: u32,
    to: u32,
}

// No pages.
const NO_PAGES: Swept = Swept { from: 0, to: 0 };

impl PlainPages {
    /// `pages` pages with tags, none of which was cleared or touched. This call and
    /// [`PlainPages::without_tags`] take memory, and no other one does.
    pub fn new(alloc: Global, pages: u32) -> Result<PlainPages, AllocError>
        ensures { IfOk result (λ p. p
            ≡ record { marks = replicate pages false; tags = replicate pages 0 }) }
    {
        let marks = no_marks(alloc, pages)?;
        let tags = vec![in alloc; 0; pages as usize]?;
        Ok(PlainPages {
            pages,
            marks,
            swept: NO_PAGES,
            tags,
        })
    }

    /// The same without tags.
    pub fn without_tags(alloc: Global, pages: u32) -> Result<PlainPages, AllocError>
        ensures { IfOk result (λ p. p ≡ record { marks = replicate pages false; tags = [] }) }
    {
        let marks = no_marks(alloc, pages)?;
        let tags = Vec::new(alloc);
        Ok(PlainPages {
            pages,
            marks,
            swept: NO_PAGES,
            tags,
        })
    }

    /// How many pages have a tag: all or none.
    pub fn tag_count(&self) -> usize
        ensures { result ≡ length self.now.tags }
    {
        self.tags.len()
    }

    /// The tag of a page, if tags are kept.
    pub fn tag(&self, page: u32) -> u64
        requires { page < length self.now.tags }
        ensures { result ≡ slice_index self.now.tags page }
    {
        self.tags[page as usize]
    }

    /// Touches a page.
    pub fn touch(&mut self, page: u32)
        requires { page < length self.old.marks }
        ensures { AreTouched page 1 self.old self.new }
    {
        write_marks(&mut self.marks, self.pages);
        set_bit(&mut self.marks, page);
    }

    /// Touches the pages from `from` to before `to`.
    pub fn sweep(&mut self, from: u32, to: u32)
        requires order { from ≤ to }
        requires within { to ≤ length self.old.marks }
        ensures { AreTouched from (to - from) self.old self.new }
    {
        let Swept {
            from: first,
            to: last,
        } = self.swept;
        if first <= to && from <= last {
            self.swept = Swept {
                from: first.min(from),
                to: last.max(to),
            };
            return;
        }
        settle(&mut self.marks, self.pages, &mut self.swept);
        self.swept = Swept { from, to };
    }

    /// The mark of a page.
    pub fn is_marked(&self, page: u32) -> bool
        requires { page < length self.now.marks }
        ensures { result ≡ mark_of self.now.marks page }
    {
        if self.swept.from <= page && page < self.swept.to {
            return true;
        }
        !self.marks.is_empty() && is_bit_set(&self.marks, page)
    }

    /// Loads the pages of the next `count` picks (at least 1) of a monitor, which has at least as many left
    /// to load.
    pub fn load(&mut self, monitor: &mut Monitor, count: u32)
        requires phase { IsLoading monitor.old.core.phase (row_count monitor.old.core) }
        requires some { 1 ≤ count }
        requires within { load_index monitor.old.core.phase + count ≤ row_count monitor.old.core }
        requires marks { length self.old.marks ≡ pages_of monitor.old.core.space }
        ensures same { self.new ≡ self.old }
        ensures core { monitor.new.core ≡ loaded_core count monitor.old.core }
        ensures events { Makes Stands monitor.old monitor.new (loads self.old.marks
            (next_picks monitor.old.core.picks (load_index monitor.old.core.phase) count)) }
    {
        settle(&mut self.marks, self.pages, &mut self.swept);
        let marks = PlainMarks {
            pages: self.pages,
            words: &self.marks,
        };
        monitor.loaded_next(count, marks);
    }

    /// Clears in this pass the pages of the picks from `from` to before `to`.
    pub fn clear(&mut self, picks: &Picks, from: u32, to: u32, pass: u64)
        requires order { from ≤ to }
        requires within { to ≤ length picks.now.pages }
        requires pages { (k : ℕ) → k < to
            → slice_index picks.now.pages k < length self.old.marks }
        ensures { AreCleared picks.now.pages from (to - from) pass self.old self.new }
    {
        settle(&mut self.marks, self.pages, &mut self.swept);
        clear_marks(&mut self.marks, picks, from, to);
        if !self.tags.is_empty() {
            put_tags(&mut self.tags, picks, from, to, pass);
        }
    }
}

/// The marks of the pages of one thread, as they are stored. It is handed over by value, so that a loop
/// which stores its results keeps these parts in registers.
#[derive(Clone, Copy)]
pub struct PlainMarks<'a> {
    pages: u32,
    words: &'a [u64],
    ghost each: { pages ≤ 64 * length words.now },
}

impl Marks for PlainMarks<'_> {
    ghost use Rattle.page_bits.specs.Sets.{bits_of};

    ghost marks_of = { λ m. bits_of m.pages m.words.now };

    fn is_marked(&self, page: u32) -> bool {
        is_bit_set(self.words, page)
    }
}

// Room for the marks of `pages` pages, none of which was touched.
#[tactic(auto, using(crate::proofs::Parts::marks_of_none))]
fn no_marks(alloc: Global, pages: u32) -> Result<Vec<u64>, AllocError>
    ensures room { IfOk result (λ marks. HaveRoomForBits pages marks.items (vec_capacity marks)) }
    ensures none { IfOk result (λ marks. marks_of pages marks.items 0 0 ≡ replicate pages false) }
{
    Vec::with_capacity(alloc, pages.div_ceil(WORD) as usize)
}

// Writes the marks of all pages, unless they are written already: none of them is set yet.
fn write_marks(marks: &mut Vec<u64>, pages: u32)
    requires { HaveRoomForBits pages marks.old.items (vec_capacity marks.old) }
    ensures room { pages ≤ 64 * vec_capacity marks.new }
    ensures each { pages ≤ 64 * length marks.new.items }
    ensures same { (p : ℕ) → bit_in marks.new.items p ≡ bit_in marks.old.items p }
{
    if marks.is_empty() {
        marks.resize(pages.div_ceil(WORD) as usize, 0).unwrap();
    }
}

// Sets the marks of the swept pages, so that none are left.
fn settle(marks: &mut Vec<u64>, pages: u32, swept: &mut Swept)
    requires order { swept.old.from ≤ swept.old.to }
    requires within { swept.old.to ≤ pages }
    requires bits { HaveRoomForBits pages marks.old.items (vec_capacity marks.old) }
    ensures room { pages ≤ 64 * vec_capacity marks.new }
    ensures each { pages ≤ 64 * length marks.new.items }
    ensures bits { (p : ℕ) → bit_in marks.new.items p ≡ (if in_run swept.old.from
        (swept.old.to - swept.old.from) p then true else bit_in marks.old.items p) }
    ensures none { swept.new ≡ record { from = 0; to = 0 } }
{
    write_marks(marks, pages);
    put_bits_of_run(marks, swept.from, swept.to - swept.from, true);
    *swept = NO_PAGES;
}

// From this many picks a word on, the next pick mostly has the word of the last one.
const PICKS_SIDE_BY_SIDE: usize = 8;

// Clears the bits of the pages of the picks from `from` to before `to`.
fn clear_marks(marks: &mut [u64], picks: &Picks, from: u32, to: u32)
    requires { HaveBits picks.now.pages from to (length marks.old) }
    ensures { AreBitsCleared picks.now.pages from (to - from) marks.old marks.new }
{
    if (to - from) as usize / PICKS_SIDE_BY_SIDE >= marks.len() {
        clear_side_by_side(marks, picks, from, to);
    } else {
        clear_one_by_one(marks, picks, from, to);
    }
}

// The same for picks that mostly have the word of the pick before them. It is kept apart, so that its loop
// has the registers.
#[inline(never)]
fn clear_side_by_side(marks: &mut [u64], picks: &Picks, from: u32, to: u32)
    requires { HaveBits picks.now.pages from to (length marks.old) }
    ensures { AreBitsCleared picks.now.pages from (to - from) marks.old marks.new }
{
    if from == to {
        return;
    }
    let mut last = LastWord::of(marks, picks.page(from));
    for next in from..to {
        last.clear_bit(marks, picks.page(next));
    }
}

// The same for picks of which nobody can foretell whether they have the word of the pick before them.
#[inline(never)]
fn clear_one_by_one(marks: &mut [u64], picks: &Picks, from: u32, to: u32)
    requires { HaveBits picks.now.pages from to (length marks.old) }
    ensures { AreBitsCleared picks.now.pages from (to - from) marks.old marks.new }
{
    for next in from..to {
        clear_bit(marks, picks.page(next));
    }
}

// Stores this tag for the pages of the picks from `from` to before `to`.
fn put_tags(tags: &mut [u64], picks: &Picks, from: u32, to: u32, tag: u64)
    requires order { from ≤ to }
    requires within { to ≤ length picks.now.pages }
    requires pages { (k : ℕ) → k < to → slice_index picks.now.pages k < length tags.old }
    ensures len { length tags.new ≡ length tags.old }
    ensures tags { (p : ℕ) → p < length tags.old → slice_index tags.new p
        ≡ (if is_picked picks.now.pages from (to - from) p then tag else slice_index tags.old p) }
{
    for next in from..to {
        tags[picks.page(next) as usize] = tag;
    }
}
