ghost use Rattle.std.specs.Prelude.{◌≡◌, ◌+◌, ◌-◌, ◌≤◌, ◌<◌, ◌^◌, [], ◌∷◌, ◌++◌, true, length, take, drop, slice_get, IfOk};
ghost use Rattle.damon_types.specs.Ranges.{InOrder};
ghost use Rattle.damon_types.specs.Span.{spans};
ghost use Rattle.region_list.specs.Rows.{cut_after, row_at, with_two, with_values};
ghost use Rattle.region_list.specs.Regions.{IsRegionList};
ghost use Rattle.region_list.specs.Tiles.{Tiles};
ghost use Rattle.region_list.specs.Tiling.{Tiling};
ghost use Rattle.region_list.specs.Shrink.{in_one_range, joined_at, shrunk};
ghost use Rattle.region_list.specs.Find.{row_index};

use crate::find::find_row;
use crate::shrink::shrink_buf;
use crate::{RowBuf, RowPass, ValuePass, join_rows};
use damon_types::{Ranges, Row};
use std::alloc::{AllocError, Global};
use std::marker::Model;
use std::mem;

/// The ranges of a monitor and the rows that tile them: each page of a range lies in exactly one
/// row, each row lies in one range and has at least `unit` pages, and there are at most `max` rows,
/// `max` being at most `cap`.
#[derive(Drop)]
pub struct Regions {
    ranges: Ranges,
    rows: RowBuf,
    // Where a pass puts its rows, which are then swapped in. Its contents mean nothing between calls.
    spare: RowBuf,
    unit: u32,
    cap: u32,
    max: u32,
}

impl Model for Regions {
    ghost use Rattle.std.specs.Prelude.{◌≡◌};
    ghost use Rattle.region_list.specs.Regions.{RegionList, IsRegionList};

    ghost Value = { RegionList };

    ghost view = { λ r. record { ranges = r.ranges.list; rows = r.rows.rows; unit = r.unit; cap = r.cap; max = r.max } };

    ghost invariant = { λ r. IsRegionList (record { ranges = r.ranges.list; rows = r.rows.rows; unit = r.unit; cap = r.cap; max = r.max })
        × (r.ranges.cap ≡ r.cap) × (r.rows.cap ≡ r.cap) × (r.spare.cap ≡ r.cap) };
}

impl Regions {
    /// No ranges and no rows, with room for `cap` of each, or an error when out of memory. At most
    /// `max` rows will be allowed (1 to `cap`), each of at least `unit` pages (at least 1). Takes memory
    /// for `cap` ranges and twice `cap` rows; no other call takes memory.
    pub fn new(alloc: Global, unit: u32, cap: u32, max: u32) -> Result<Regions, AllocError>
        requires unit { 1 ≤ unit }
        requires least { 1 ≤ max }
        requires most { max ≤ cap }
        ensures { IfOk result (λ r.
            r ≡ record { ranges = []; rows = []; unit = unit; cap = cap; max = max }) }
    {
        let ranges = Ranges::new(alloc, cap)?;
        let rows = RowBuf::new(alloc, cap)?;
        let spare = RowBuf::new(alloc, cap)?;
        Ok(Regions {
            ranges,
            rows,
            spare,
            unit,
            cap,
            max,
        })
    }

    /// Replaces the ranges, the rows and `max`. The rows tile the ranges with this list's `unit` and
    /// are at most `max`, which is 1 to `cap`; there are at most `cap` ranges.
    pub fn replace(&mut self, ranges: &Ranges, rows: &RowBuf, max: u32)
        requires tiling { Tiling self.old.unit ranges.now.list (spans rows.now.rows) }
        requires few { length rows.now.rows ≤ max }
        requires least { 1 ≤ max }
        requires most { max ≤ self.old.cap }
        requires ranges { length ranges.now.list ≤ self.old.cap }
        ensures lists { self.new ≡ record self.old {
          ranges = ranges.now.list;
          rows = rows.now.rows;
          max = max;
        } }
        ensures kept { IsRegionList self.new }
    {
        self.ranges.copy_from(ranges);
        self.rows.copy_from(rows);
        self.max = max;
    }

    /// Joins adjacent rows of one range, as `shrink_rows` does, until there are at most `max`, and makes
    /// `max` the most rows allowed. It is 1 to `cap`, and there are at most `max` ranges.
    pub fn shrink_to(&mut self, max: u32)
        requires least { 1 ≤ max }
        requires most { max ≤ self.old.cap }
        requires enough { length self.old.ranges ≤ max }
        ensures { self.new ≡ record self.old {
          rows = shrunk self.old.ranges max self.old.rows;
          max = max;
        } }
    {
        shrink_buf(&mut self.rows, &self.ranges, max);
        self.max = max;
    }

    /// Replaces all rows by those that a pass makes of them. The new rows tile the ranges with this
    /// list's `unit` and are at most `max`.
    pub fn remake<P: RowPass>(&mut self, pass: &P)
        requires can { P.can_run pass.now self.old.rows }
        requires tiling { Tiling self.old.unit self.old.ranges
            (spans (P.rows_of pass.now self.old.ranges self.old.rows)) }
        requires few { length (P.rows_of pass.now self.old.ranges self.old.rows) ≤ self.old.max }
        ensures { self.new ≡ record self.old {
          rows = P.rows_of pass.now self.old.ranges self.old.rows;
        } }
    {
        self.spare.clear();
        pass.run(&self.ranges, &self.rows, &mut self.spare);
        mem::swap(&mut self.rows, &mut self.spare);
    }

    /// Gives all rows the values that a pass makes of them: their counts, last counts and ages. The pages
    /// of the rows stay.
    pub fn revalue<P: ValuePass>(&mut self, pass: &P)
        requires can { P.can_run pass.now self.old.rows }
        requires spans { spans (P.values_of pass.now self.old.rows) ≡ spans self.old.rows }
        ensures { self.new ≡ record self.old { rows = P.values_of pass.now self.old.rows } }
    {
        self.rows.revalue(pass);
    }

    /// Cuts the row with this index, which is below the number of rows, after `pages` of its pages. Both
    /// parts have its count, last count and age, and at least `unit` pages; there is room for one row
    /// more. The rows behind it are moved, and no other row is copied.
    pub fn cut(&mut self, index: u32, pages: u32)
        requires within { index < length self.old.rows }
        requires room { length self.old.rows < self.old.max }
        requires first { self.old.unit ≤ pages }
        requires second { self.old.unit ≤ (row_at self.old.rows index).pages - pages }
        ensures { self.new ≡ record self.old { rows = cut_after self.old.rows index pages } }
    {
        let row = self.row(index);
        let second = Row {
            start: row.start + pages,
            pages: row.pages - pages,
            ..row
        };
        self.put_two(index, Row { pages, ..row }, second);
    }

    // Puts two rows in the place of the one with this index. There is room for one row more, and the new
    // rows tile the ranges.
    fn put_two(&mut self, index: u32, first: Row, second: Row)
        requires within { index < length self.old.rows }
        requires room { length self.old.rows < self.old.max }
        requires tiling { Tiling self.old.unit self.old.ranges
            (spans (with_two self.old.rows index first second)) }
        ensures { self.new ≡ record self.old { rows = with_two self.old.rows index first second } }
    {
        let index = index as usize;
        self.rows.set(index, first);
        self.rows.insert(index + 1, second);
    }

    /// Joins the row with this index and the next one, which lie in one range. The joined row has the
    /// pages of both; its count, last count and age are averages weighted by pages and rounded down.
    pub fn join(&mut self, index: u32)
        requires pair { index + 1 < length self.old.rows }
        requires range { in_one_range self.old.ranges (row_at self.old.rows index)
            (row_at self.old.rows (index + 1)) ≡ true }
        ensures { self.new ≡ record self.old { rows = joined_at index self.old.rows } }
    {
        let first = self.row(index);
        let second = self.row(index + 1);
        let joined = join_rows(&first, &second);
        self.put_one(index, joined);
    }

    // Puts a row in the place of the one with this index and the next one. The new rows tile the ranges.
    fn put_one(&mut self, index: u32, row: Row)
        requires pair { index + 1 < length self.old.rows }
        requires tiling { Tiling self.old.unit self.old.ranges
            (spans (take index self.old.rows ++ row ∷ drop (index + 2) self.old.rows)) }
        ensures { self.new ≡ record self.old {
          rows = take index self.old.rows ++ row ∷ drop (index + 2) self.old.rows;
        } }
    {
        let index = index as usize;
        self.rows.remove(index);
        self.rows.set(index, row);
    }

    /// The number of rows. Its clauses also say what holds of every region list.
    pub fn len(&self) -> u32
        ensures len { result ≡ length self.now.rows }
        ensures few { result ≤ self.now.max }
        ensures most { self.now.max ≤ self.now.cap }
        ensures small { self.now.cap < 2 ^ 32 }
        ensures unit { 1 ≤ self.now.unit }
        ensures order { InOrder self.now.ranges }
        ensures tiling { Tiling self.now.unit self.now.ranges (spans self.now.rows) }
        ensures tiles { Tiles self.now.ranges (spans self.now.rows) self.now.unit }
    {
        self.rows.len()
    }

    /// The most rows allowed now.
    pub fn max(&self) -> u32
        ensures { result ≡ self.now.max }
    {
        self.max
    }

    /// The most rows ever allowed.
    pub fn cap(&self) -> u32
        ensures { result ≡ self.now.cap }
    {
        self.cap
    }

    /// The minimum size of a row in pages.
    pub fn unit(&self) -> u32
        ensures { result ≡ self.now.unit }
    {
        self.unit
    }

    /// How many more rows are allowed now.
    pub fn room(&self) -> u32
        ensures { result ≡ self.now.max - length self.now.rows }
    {
        self.max - self.rows.len()
    }

    /// The ranges that the rows tile.
    pub fn ranges(&self) -> &Ranges
        ensures list { result.now.list ≡ self.now.ranges }
        ensures cap { result.now.cap ≡ self.now.cap }
    {
        &self.ranges
    }

    /// The rows in order of their pages.
    pub fn rows(&self) -> &RowBuf
        ensures rows { result.now.rows ≡ self.now.rows }
        ensures cap { result.now.cap ≡ self.now.cap }
        ensures kept { IsRegionList self.now }
    {
        &self.rows
    }

    /// The row with this index, which is below the number of rows. It has at least `unit` pages and
    /// ends below page 2^32.
    pub fn row(&self, index: u32) -> Row
        requires { index < length self.now.rows }
        ensures row { slice_get self.now.rows index ≡ Some result }
        ensures size { self.now.unit ≤ result.pages }
        ensures some { 1 ≤ result.pages }
        ensures end { result.start + result.pages < 2 ^ 32 }
        ensures kept { IsRegionList self.now }
    {
        self.rows.get(index)
    }

    /// The index of the row that holds the page, or `None` where no row holds it. The search is binary.
    pub fn find(&self, page: u32) -> Option<u32>
        ensures { result ≡ row_index self.now.rows page }
    {
        find_row(&self.rows, page)
    }

    /// Sets the count, last count and age of the row with this index, which is below the number of
    /// rows. The row's pages stay.
    pub fn set_values(&mut self, index: u32, count: u32, last: u32, age: u32)
        requires { index < length self.old.rows }
        ensures { self.new ≡ record self.old {
          rows = with_values self.old.rows index count last age;
        } }
    {
        self.rows.set_values(index as usize, count, last, age);
    }
}
