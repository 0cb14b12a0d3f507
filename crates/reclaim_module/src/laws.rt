ghost use Rattle.std.specs.Prelude.{◌≡◌, ℕ, true, not, count_by, List, length};
ghost use Rattle.damon_core.specs.Note.{Note};
ghost use Rattle.damon_core.specs.State.{State};
ghost use Rattle.reclaim_module.specs.Out.{IsOutSinceLast, is_out};
ghost use Rattle.page_bits.specs.Runs.{count_pages};
ghost use Rattle.reclaim_module.specs.Pages.{ReclaimView, out_count};
ghost use Rattle.reclaim_module.specs.SlotBySlot.{PagesOutSlotBySlot};
ghost use Rattle.reclaim_module.specs.Stands.{ReclaimStands};

/// A page is out exactly where a `pageout` scheme was run with it in a run, and no note after the last such
/// one is a touch of the page or of a `willneed` scheme with it in a run.
pub fn pages_are_out_since_their_last()
    ensures since { (notes : List Note) (page : ℕ) → is_out notes page ≡ true
        → IsOutSinceLast notes page }
    ensures out { (notes : List Note) (page : ℕ) → IsOutSinceLast notes page
        → is_out notes page ≡ true }
{}

/// Where a model stands for notes, as many of its pages are out, and as many are resident, as by the notes.
pub fn model_counts_pages()
    ensures out { (r : ReclaimView) (notes : List Note) → ReclaimStands r notes
        → out_count r.out ≡ count_pages (length r.out) (is_out notes) }
    ensures resident { (r : ReclaimView) (notes : List Note) → ReclaimStands r notes
        → count_by not r.out
        ≡ count_pages (length r.out) (λ page. not (is_out notes page)) }
{}

/// What an aggregation pages out is, slot by slot, what is resident of the pages that the `pageout` scheme
/// of the slot is applied to.
pub fn slots_page_out_what_is_resident()
    ensures { (s : State) → PagesOutSlotBySlot s }
{}
