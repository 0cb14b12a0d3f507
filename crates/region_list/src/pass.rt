// Passes that replace a whole list of rows, or the values of all rows.
ghost use Rattle.std.specs.Prelude.{◌≡◌, ◌≤◌, [], List, length};
ghost use Rattle.damon_types.specs.declared.range.Range.{Range as range};
ghost use Rattle.damon_types.specs.declared.row.Row.{Row as row};
ghost use Rattle.damon_types.specs.Span.{spans};
ghost use Rattle.region_list.specs.Columns.{AreValues};
ghost use Rattle.region_list.specs.Tiling.{Tiling};

use crate::RowBuf;
use damon_types::Ranges;

/// A pass over rows that tile some ranges: it reads them and produces the rows that replace them.
/// `Regions::remake` runs it.
pub trait RowPass {
    /// The rows that replace these rows of these ranges.
    ghost rows_of: { Self → List range → List row → List row };

    /// What the pass needs of the rows besides that they tile their ranges.
    ghost can_run: { Self → List row → Type 0 };

    /// Pushes the new rows onto `made`, which is empty and has the capacity for them. The pass takes
    /// no memory.
    fn run(&self, ranges: &Ranges, rows: &RowBuf, made: &mut RowBuf)
        requires tiling { Tiling 1 ranges.now.list (spans rows.now.rows) }
        requires can { can_run self.now rows.now.rows }
        requires empty { made.old.rows ≡ [] }
        requires room { length (rows_of self.now ranges.now.list rows.now.rows) ≤ made.old.cap }
        ensures { made.new ≡ record made.old { rows = rows_of self.now ranges.now.list rows.now.rows } };
}

/// A pass over the values of rows: their counts, last counts and ages, each in a list of its own. The
/// pages of the rows stay. `Regions::revalue` runs it.
pub trait ValuePass {
    /// The rows that replace these rows.
    ghost values_of: { Self → List row → List row };

    /// What the pass needs of the rows.
    ghost can_run: { Self → List row → Type 0 };

    /// Changes the values of rows for which the pass can run.
    fn run(&self, counts: &mut [u32], lasts: &mut [u32], ages: &mut [u32])
        requires { (rows : List row) × AreValues rows counts.old lasts.old ages.old × can_run self.now rows }
        ensures { (rows : List row) → AreValues rows counts.old lasts.old ages.old
            → AreValues (values_of self.now rows) counts.new lasts.new ages.new };
}
