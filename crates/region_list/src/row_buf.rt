ghost use Rattle.std.specs.Prelude.{◌≡◌, ◌+◌, ◌-◌, ◌^◌, ◌≤◌, ◌<◌, [], ◌∷◌, ◌++◌, length, map, slice_get, slice_set, take, drop, vec_len, vec_capacity, IfOk};
ghost use Rattle.std.specs.List.{insert};
ghost use Rattle.damon_types.specs.Span.{spans};
ghost use Rattle.region_list.specs.Rows.{row_at, with_values};

use crate::ValuePass;
use damon_types::{Row, append_reserved};
use std::alloc::{AllocError, Global};
use std::marker::Model;

// The most rows that are appended one after another: for so few, six copies of stretches take longer.
const FEW_ROWS: usize = 4;

/// A list of rows with a fixed capacity. The rows need not tile anything. Each field of the rows has a
/// list of its own.
#[derive(Drop)]
pub struct RowBuf {
    targets: Vec<u32>,
    starts: Vec<u32>,
    pages: Vec<u32>,
    counts: Vec<u32>,
    lasts: Vec<u32>,
    ages: Vec<u32>,
    cap: u32,
}

impl Model for RowBuf {
    ghost use Rattle.std.specs.Prelude.{◌≤◌, ◌<◌, ◌^◌, vec_capacity, length};
    ghost use Rattle.region_list.specs.Rows.{RowList};
    ghost use Rattle.region_list.specs.Columns.{zipped, AreColumns};

    ghost Value = { RowList };

    ghost view = { λ b. record {
      rows = zipped b.targets.items b.starts.items b.pages.items b.counts.items b.lasts.items b.ages.items;
      cap = b.cap;
    } };

    ghost invariant = { λ b.
        AreColumns (zipped b.targets.items b.starts.items b.pages.items b.counts.items b.lasts.items b.ages.items)
        b.targets.items b.starts.items b.pages.items b.counts.items b.lasts.items b.ages.items
        × (length b.targets.items ≤ b.cap) × (b.cap < 2 ^ 32)
        × (b.cap ≤ vec_capacity b.targets) × (b.cap ≤ vec_capacity b.starts) × (b.cap ≤ vec_capacity b.pages)
        × (b.cap ≤ vec_capacity b.counts) × (b.cap ≤ vec_capacity b.lasts) × (b.cap ≤ vec_capacity b.ages) };
}

impl RowBuf {
    /// The empty list with room for `cap` rows, or an error when out of memory. No other call takes
    /// memory.
    pub fn new(alloc: Global, cap: u32) -> Result<RowBuf, AllocError>
        ensures { IfOk result (λ b. b ≡ record { rows = []; cap = cap }) }
    {
        let room = cap as usize;
        let targets = Vec::with_capacity(alloc, room)?;
        let starts = Vec::with_capacity(alloc, room)?;
        let pages = Vec::with_capacity(alloc, room)?;
        let counts = Vec::with_capacity(alloc, room)?;
        let lasts = Vec::with_capacity(alloc, room)?;
        let ages = Vec::with_capacity(alloc, room)?;
        Ok(RowBuf {
            targets,
            starts,
            pages,
            counts,
            lasts,
            ages,
            cap,
        })
    }

    /// The number of rows for which there is room.
    pub fn cap(&self) -> u32
        ensures { result ≡ self.now.cap }
    {
        self.cap
    }

    /// The number of rows.
    pub fn len(&self) -> u32
        ensures { result ≡ length self.now.rows }
    {
        self.targets.len() as u32
    }

    /// The row with this index, which is below the number of rows.
    pub fn get(&self, index: u32) -> Row
        requires { index < length self.now.rows }
        ensures { slice_get self.now.rows index ≡ Some result }
    {
        self.at(index as usize)
    }

    /// The row with this index, which is below the number of rows, for a loop over the rows that are left.
    pub fn next(&self, index: u32) -> Row
        requires { index < length self.now.rows }
        ensures row { slice_get self.now.rows index ≡ Some result }
        ensures rest { drop index self.now.rows ≡ result ∷ drop (index + 1) self.now.rows }
    {
        self.get(index)
    }

    /// The targets of the rows, in order.
    pub fn targets(&self) -> &[u32]
        ensures { result.now ≡ map (λ r. r.target) self.now.rows }
    {
        &self.targets
    }

    /// The first pages of the rows, in order.
    pub fn starts(&self) -> &[u32]
        ensures { result.now ≡ map (λ r. r.start) self.now.rows }
    {
        &self.starts
    }

    /// The numbers of pages of the rows, in order.
    pub fn pages(&self) -> &[u32]
        ensures { result.now ≡ map (λ r. r.pages) self.now.rows }
    {
        &self.pages
    }

    /// The counts of the rows, in order.
    pub fn counts(&self) -> &[u32]
        ensures { result.now ≡ map (λ r. r.count) self.now.rows }
    {
        &self.counts
    }

    /// The last counts of the rows, in order.
    pub fn lasts(&self) -> &[u32]
        ensures { result.now ≡ map (λ r. r.last) self.now.rows }
    {
        &self.lasts
    }

    /// The ages of the rows, in order.
    pub fn ages(&self) -> &[u32]
        ensures { result.now ≡ map (λ r. r.age) self.now.rows }
    {
        &self.ages
    }

    /// Appends a row, for which there is room.
    pub fn push(&mut self, row: Row)
        requires { length self.old.rows < self.old.cap }
        ensures { self.new ≡ record self.old { rows = self.old.rows ++ row ∷ [] } }
    {
        self.targets.push_reserved(row.target);
        self.starts.push_reserved(row.start);
        self.pages.push_reserved(row.pages);
        self.counts.push_reserved(row.count);
        self.lasts.push_reserved(row.last);
        self.ages.push_reserved(row.age);
    }

    /// The number of rows, as an index.
    pub fn count(&self) -> usize
        ensures { result ≡ length self.now.rows }
    {
        self.targets.len()
    }

    /// The row with this index, which is below the number of rows.
    #[inline]
    pub fn at(&self, index: usize) -> Row
        requires { index < length self.now.rows }
        ensures { result ≡ row_at self.now.rows index }
    {
        Row {
            target: self.targets[index],
            start: self.starts[index],
            pages: self.pages[index],
            count: self.counts[index],
            last: self.lasts[index],
            age: self.ages[index],
        }
    }

    // Replaces the row with this index, which is below the number of rows.
    pub(crate) fn set(&mut self, index: usize, row: Row)
        requires { index < length self.old.rows }
        ensures set { self.new ≡ record self.old { rows = slice_set self.old.rows index row } }
        ensures few { length self.old.rows < 2 ^ 32 }
    {
        self.targets[index] = row.target;
        self.starts[index] = row.start;
        self.pages[index] = row.pages;
        self.counts[index] = row.count;
        self.lasts[index] = row.last;
        self.ages[index] = row.age;
    }

    // Gives the row with this index, which is below the number of rows, another count, last count and age.
    pub(crate) fn set_values(&mut self, index: usize, count: u32, last: u32, age: u32)
        requires { index < length self.old.rows }
        ensures { self.new ≡ record self.old {
          rows = with_values self.old.rows index count last age;
        } }
    {
        self.counts[index] = count;
        self.lasts[index] = last;
        self.ages[index] = age;
    }

    // Gives all rows the values that a pass makes of them. The pages of the rows stay.
    pub(crate) fn revalue<P: ValuePass>(&mut self, pass: &P)
        requires can { P.can_run pass.now self.old.rows }
        requires spans { spans (P.values_of pass.now self.old.rows) ≡ spans self.old.rows }
        ensures { self.new ≡ record self.old { rows = P.values_of pass.now self.old.rows } }
    {
        pass.run(&mut self.counts, &mut self.lasts, &mut self.ages);
    }

    // Puts a row before the one with this index, or behind all rows. There is room for it.
    pub(crate) fn insert(&mut self, index: usize, row: Row)
        requires within { index ≤ length self.old.rows }
        requires room { length self.old.rows < self.old.cap }
        ensures { self.new ≡ record self.old { rows = insert self.old.rows index row } }
    {
        insert_reserved(&mut self.targets, index, row.target);
        insert_reserved(&mut self.starts, index, row.start);
        insert_reserved(&mut self.pages, index, row.pages);
        insert_reserved(&mut self.counts, index, row.count);
        insert_reserved(&mut self.lasts, index, row.last);
        insert_reserved(&mut self.ages, index, row.age);
    }

    // Takes out the row with this index, which is below the number of rows.
    pub(crate) fn remove(&mut self, index: usize)
        requires { index < length self.old.rows }
        ensures { self.new ≡ record self.old {
          rows = take index self.old.rows ++ drop (index + 1) self.old.rows;
        } }
    {
        self.targets.remove(index);
        self.starts.remove(index);
        self.pages.remove(index);
        self.counts.remove(index);
        self.lasts.remove(index);
        self.ages.remove(index);
    }

    // Keeps the first `count` rows.
    pub(crate) fn truncate(&mut self, count: usize)
        ensures { self.new ≡ record self.old { rows = take count self.old.rows } }
    {
        self.targets.truncate(count);
        self.starts.truncate(count);
        self.pages.truncate(count);
        self.counts.truncate(count);
        self.lasts.truncate(count);
        self.ages.truncate(count);
    }

    /// Replaces all rows by these, for which there is room.
    pub fn copy_from(&mut self, rows: &RowBuf)
        requires { length rows.now.rows ≤ self.old.cap }
        ensures { self.new ≡ record self.old { rows = rows.now.rows } }
    {
        self.clear();
        append_reserved(&mut self.targets, &rows.targets);
        append_reserved(&mut self.starts, &rows.starts);
        append_reserved(&mut self.pages, &rows.pages);
        append_reserved(&mut self.counts, &rows.counts);
        append_reserved(&mut self.lasts, &rows.lasts);
        append_reserved(&mut self.ages, &rows.ages);
    }

    /// Appends the rows of another list from index `from` to before `to`, for which there is room.
    pub fn append_rows(&mut self, rows: &RowBuf, from: usize, to: usize)
        requires order { from ≤ to }
        requires within { to ≤ length rows.now.rows }
        requires room { length self.old.rows + (to - from) ≤ self.old.cap }
        ensures { self.new ≡ record self.old {
          rows = self.old.rows ++ take (to - from) (drop from rows.now.rows);
        } }
    {
        if to - from <= FEW_ROWS {
            self.append_each(rows, from, to - from);
        } else {
            self.append_columns(rows, from, to);
        }
    }

    // Appends `count` rows of another list from index `from` on, one after another.
    fn append_each(&mut self, rows: &RowBuf, from: usize, count: usize)
        requires within { from + count ≤ length rows.now.rows }
        requires room { length self.old.rows + count ≤ self.old.cap }
        ensures { self.new ≡ record self.old {
          rows = self.old.rows ++ take count (drop from rows.now.rows);
        } }
    {
        // For its clauses alone: the number of rows is a u32.
        let _count = rows.len();
        for place in 0..count {
            self.push(rows.at(from + place));
        }
    }

    // Appends the rows of another list from index `from` to before `to`, column by column.
    fn append_columns(&mut self, rows: &RowBuf, from: usize, to: usize)
        requires order { from ≤ to }
        requires within { to ≤ length rows.now.rows }
        requires room { length self.old.rows + (to - from) ≤ self.old.cap }
        ensures { self.new ≡ record self.old {
          rows = self.old.rows ++ take (to - from) (drop from rows.now.rows);
        } }
    {
        append_reserved(&mut self.targets, &rows.targets()[from..to]);
        append_reserved(&mut self.starts, &rows.starts()[from..to]);
        append_reserved(&mut self.pages, &rows.pages()[from..to]);
        append_reserved(&mut self.counts, &rows.counts()[from..to]);
        append_reserved(&mut self.lasts, &rows.lasts()[from..to]);
        append_reserved(&mut self.ages, &rows.ages()[from..to]);
    }

    /// Empties the list. The capacity stays.
    pub fn clear(&mut self)
        ensures { self.new ≡ record self.old { rows = [] } }
    {
        self.targets.clear();
        self.starts.clear();
        self.pages.clear();
        self.counts.clear();
        self.lasts.clear();
        self.ages.clear();
    }
}

// Puts a number before the one with this index, or behind all. There is room for it.
fn insert_reserved(numbers: &mut Vec<u32>, index: usize, number: u32)
    requires within { index ≤ vec_len numbers.old }
    requires room { vec_len numbers.old < vec_capacity numbers.old }
    ensures items { numbers.new.items ≡ insert numbers.old.items index number }
    ensures len { vec_len numbers.new ≡ vec_len numbers.old + 1 }
    ensures capacity { vec_capacity numbers.old ≤ vec_capacity numbers.new }
{
    // There is room, so no memory is taken.
    if numbers.insert(index, number).is_err() {
        unreachable!();
    }
}
