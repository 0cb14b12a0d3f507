// Receipts that are read ahead of the entries of a journal.
ghost use Rattle.std.specs.Prelude.{◌≡◌, ◌+◌, ◌≤◌, ◌<◌, [], All, IfOk, length, List};
ghost use Rattle.damon_types.specs.Space.{pages_of};
ghost use Rattle.damon_control.specs.declared.reader.TheConstants.{MAX_BYTES};
ghost use Rattle.line_text.specs.Parts.{parts};
ghost use Rattle.page_words.specs.declared.view.Entry.{Entry as Step};
ghost use Rattle.journal_check.specs.Ahead.{IsPrepared, after_receipts, first_refused, named_by, named_by_none, receipts_of, seen_ahead};
ghost use Rattle.journal_check.specs.Folding.{open_hits};
ghost use Rattle.page_words.specs.PassSteps.{load_steps};

use crate::receipts::by_tag::SeenByTag;
use crate::receipts::list::SeenList;
use crate::receipts::named::{hits_without_mark, name_due, named_by_none, set_pages};
use crate::receipts::order::first_wrong;
use crate::receipts::read::read_receipts;
use damon_types::Space;
use page_bits::BitSet;
use sampler::Picks;
use std::alloc::{AllocError, Global};
use std::marker::Model;

// The receipts of a text, each with its worker, and whether each names a pass that cleared its
// page. They are read ahead of the entries, so that no list of all clears is kept: each pass marks
// those that name it.
#[derive(Drop)]
pub(crate) struct Ahead {
    seen: SeenByTag,
    // The receipts that a pass has named, by their index.
    named: BitSet,
    // Scratch space for pages: empty before and after each call.
    marked: BitSet,
}

impl Model for Ahead {
    ghost use Rattle.std.specs.Prelude.{length};
    ghost use Rattle.journal_check.specs.Ahead.{AheadView, IsAhead};

    ghost Value = { AheadView };

    ghost view = { λ a. record {
      receipts = a.seen;
      named = a.named;
      pages = length a.marked;
    } };

    ghost invariant = { λ a. IsAhead a.seen a.named a.marked };
}

impl Ahead {
    // Reads the receipts of a text, which is what follows the head of a journal. No pass is
    // prepared yet. The error is that memory ran out.
    pub(crate) fn read(alloc: Global, space: &Space, text: &[u8]) -> Result<Ahead, AllocError>
        requires { length text.now ≤ MAX_BYTES }
        ensures receipts { IfOk result (λ a. a.receipts
            ≡ seen_ahead space.now (after_receipts (parts 10 text.now))) }
        ensures named { IfOk result (λ a. a.named ≡ named_by_none a.receipts) }
        ensures pages { IfOk result (λ a. a.pages ≡ pages_of space.now) }
    {
        let receipts = read_receipts(alloc, space, text)?;
        Ahead::of(alloc, receipts, space.pages())
    }

    // These receipts, whose pages are below `pages`. No pass is prepared yet. The error is that
    // memory ran out.
    fn of(alloc: Global, receipts: SeenList, pages: u32) -> Result<Ahead, AllocError>
        requires few { length receipts ≤ MAX_BYTES }
        requires within { All (λ x. x.1.page < pages) receipts }
        ensures { IfOk result (λ a. a ≡ record {
          receipts = receipts;
          named = named_by_none receipts;
          pages = pages;
        }) }
    {
        let named = named_by_none(alloc, &receipts)?;
        let seen = SeenByTag::of(alloc, receipts)?;
        let marked = BitSet::none(alloc, pages)?;
        Ok(Ahead {
            seen,
            named,
            marked,
        })
    }

    // The number of receipts.
    pub(crate) fn len(&self) -> usize
        ensures { result ≡ length self.now.receipts }
    {
        self.seen.len()
    }

    // Marks the receipts that name a pass with these picks. Takes no memory.
    pub(crate) fn prepare(&mut self, pass: u64, picks: &Picks)
        requires early { pass ≤ MAX_BYTES + 1 }
        requires picks { All (λ p. p < self.old.pages) picks.now.pages }
        ensures { IsPrepared pass picks.now.pages self.old self.new }
    {
        name_due(&mut self.named, &mut self.marked, &self.seen, pass, picks);
    }

    // How many of these results of the picks of a pass are hits without a receipt. Takes no memory.
    pub(crate) fn open_hits(&mut self, pass: u64, picks: &Picks, bits: &[bool]) -> u64
        requires early { pass ≤ MAX_BYTES + 1 }
        requires picks { All (λ p. p < self.old.pages) picks.now.pages }
        requires each { length bits.now ≡ length picks.now.pages }
        ensures hits { result ≡ open_hits (receipts_of self.old.receipts)
            (load_steps pass picks.now.pages bits.now) }
        ensures same { self.new ≡ self.old }
    {
        set_pages(&mut self.marked, &self.seen, pass, true);
        let open = hits_without_mark(&self.marked, picks, bits);
        set_pages(&mut self.marked, &self.seen, pass, false);
        open
    }

    // The index of the first receipt that may not be seen after those before it. Takes memory by
    // the number of pages, after it has freed what the entries needed; the error is that there is
    // none left.
    pub(crate) fn refused(self, alloc: Global) -> Result<Option<usize>, AllocError>
        ensures { (done : List Step) → self.named ≡ named_by done self.receipts
            → IfOk result (λ index. index ≡ first_refused done [] self.receipts) }
    {
        let Ahead {
            seen,
            named,
            marked,
        } = self;
        let pages = marked.len();
        drop(marked);
        let index = first_wrong(alloc, &seen.into_list(), &named, pages)?;
        Ok(index)
    }
}
