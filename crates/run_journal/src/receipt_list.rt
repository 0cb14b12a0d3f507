// The receipts of a worker, in columns.
ghost use Rattle.std.specs.Prelude.{◌≡◌, ℕ, ◌+◌, ◌-◌, ◌*◌, ◌/◌, ◌^◌, ◌<◌, ◌≤◌, Some, [], ◌∷◌, ◌++◌, length, slice_get, slice_index, vec_capacity, vec_len, OnErr, OnOk};

use crate::entry::Receipt;
use std::alloc::{AllocError, Global};
use std::marker::Model;

// 2^16: a quarter of a tag is below it.
const QUARTER: u64 = 1 << 16;

// 2^32: a tag is `HALF` times its upper half, and its lower half.
const HALF: u64 = 1 << 32;

// For how many receipts `push` makes room at once, so that most pushes look at no capacity.
const STRETCH: u32 = 1024;

/// The receipts of a worker, in the order of its touches: a list of fewer than 2^32 receipts, which grows.
/// It keeps the allocator that it was made with.
///
/// The parts of a receipt lie in lists of their own, and of a tag only the first quarter is always written:
/// the others lack the zeros at their ends. So a receipt takes 6 bytes in most runs, 8 up to the last tag of
/// 65,536 or more, and at most 12.
#[derive(Drop)]
pub struct ReceiptList {
    pages: Vec<u32>,
    // The quarters of the tags, the lowest first.
    first: Vec<u16>,
    second: Vec<u16>,
    third: Vec<u16>,
    fourth: Vec<u16>,
    // How many more receipts fit into each of the lists.
    room: u32,
}

impl Model for ReceiptList {
    ghost use Rattle.std.specs.Prelude.{vec_capacity, vec_len};
    ghost use Rattle.damon_types.specs.Listed.{Listed};
    ghost use Rattle.run_journal.specs.declared.entry.Receipt.{Receipt as receipt};
    ghost use Rattle.run_journal.specs.ReceiptColumns.{AreReceiptColumns, HaveRoom, receipts_in};

    ghost Value = { Listed receipt };

    ghost view = { λ l. record {
      list = receipts_in l.pages.items (record {
        first = l.first.items;
        second = l.second.items;
        third = l.third.items;
        fourth = l.fourth.items;
      });
      spare = l.room;
    } };

    ghost invariant = { λ l. AreReceiptColumns l.pages.items (record {
      first = l.first.items;
      second = l.second.items;
      third = l.third.items;
      fourth = l.fourth.items;
    })
        × HaveRoom (vec_len l.pages) (vec_capacity l.pages) (vec_capacity l.first) (vec_capacity l.second)
        (vec_capacity l.third) (vec_capacity l.fourth) l.room };
}

impl ReceiptList {
    /// The empty list. Does not allocate.
    pub fn new(alloc: Global) -> ReceiptList
        ensures { result ≡ record { list = []; spare = 0 } }
    {
        ReceiptList {
            pages: Vec::new(alloc),
            first: Vec::new(alloc),
            second: Vec::new(alloc),
            third: Vec::new(alloc),
            fourth: Vec::new(alloc),
            room: 0,
        }
    }

    /// The number of receipts.
    pub fn len(&self) -> u32
        ensures { result ≡ length self.now.list }
    {
        self.pages.len() as u32
    }

    /// The receipt with this index, which must be below [`ReceiptList::len`].
    pub fn get(&self, index: u32) -> Receipt
        requires { index < length self.now.list }
        ensures { slice_get self.now.list index ≡ Some result }
    {
        let place = index as usize;
        let lower = u64::from(self.first[place]) + QUARTER * quarter_at(&self.second, place);
        let upper = quarter_at(&self.third, place) + QUARTER * quarter_at(&self.fourth, place);
        Receipt {
            page: self.pages[place],
            tag: lower + HALF * upper,
        }
    }

    /// Appends a receipt. Allocates; on an error the list is unchanged. The list must have fewer than
    /// 2^32 - 1 receipts.
    pub fn push(&mut self, item: Receipt) -> Result<(), AllocError>
        requires { length self.old.list < 2 ^ 32 - 1 }
        ensures ok { OnOk result (self.new.list ≡ self.old.list ++ item ∷ []) }
        ensures err { OnErr result (self.new ≡ self.old) }
    {
        if self.room == 0 {
            let most = u32::MAX - self.len();
            self.reserve(STRETCH.min(most))?;
        }
        self.put(item);
        Ok(())
    }

    /// How many more receipts fit without an allocation, by [`ReceiptList::put`].
    pub fn spare(&self) -> u32
        ensures { result ≡ self.now.spare }
    {
        self.room
    }

    /// Makes room for at least `extra` more receipts; with them the list must have fewer than 2^32.
    /// Allocates; on an error the list is unchanged.
    pub fn reserve(&mut self, extra: u32) -> Result<(), AllocError>
        requires { length self.old.list + extra < 2 ^ 32 }
        ensures list { self.new.list ≡ self.old.list }
        ensures ok { OnOk result (extra ≤ self.new.spare) }
        ensures spare { self.old.spare ≤ self.new.spare }
        ensures err { OnErr result (self.new ≡ self.old) }
    {
        if self.room < extra {
            let before = self.pages.len();
            self.pages.reserve(extra as usize)?;
            self.first.reserve(extra as usize)?;
            self.second
                .reserve(before - self.second.len() + extra as usize)?;
            self.third
                .reserve(before - self.third.len() + extra as usize)?;
            self.fourth
                .reserve(before - self.fourth.len() + extra as usize)?;
            self.room = extra;
        }
        Ok(())
    }

    /// Appends a receipt. There must be room for it; does not allocate.
    pub fn put(&mut self, item: Receipt)
        requires { 1 ≤ self.old.spare }
        ensures { self.new
            ≡ record { list = self.old.list ++ item ∷ []; spare = self.old.spare - 1 } }
    {
        let place = self.pages.len();
        let (lower, upper) = (item.tag % HALF, item.tag / HALF);
        keep_quarter(&mut self.second, place, (lower / QUARTER) as u16);
        keep_quarter(&mut self.third, place, (upper % QUARTER) as u16);
        keep_quarter(&mut self.fourth, place, (upper / QUARTER) as u16);
        self.pages.push_reserved(item.page);
        self.first.push_reserved((lower % QUARTER) as u16);
        self.room -= 1;
    }
}

// The quarter with this index, where zeros at the end are left out.
fn quarter_at(quarters: &[u16], index: usize) -> u64
    ensures exact { result ≡ slice_index quarters.now index }
    ensures most { result < 2 ^ 16 }
{
    match quarters.get(index) {
        Some(quarter) => u64::from(*quarter),
        None => 0,
    }
}

// Keeps the quarter with this index, which is behind those that are kept. A 0 is left out.
fn keep_quarter(quarters: &mut Vec<u16>, index: usize, quarter: u16)
    requires few { vec_len quarters.old ≤ index }
    requires room { index < vec_capacity quarters.old }
    ensures here { slice_index quarters.new.items index ≡ quarter }
    ensures others { (i : ℕ) → i < index
        → slice_index quarters.new.items i ≡ slice_index quarters.old.items i }
    ensures few { vec_len quarters.new ≤ index + 1 }
    ensures room { vec_capacity quarters.new ≡ vec_capacity quarters.old }
{
    if quarter != 0 {
        'zeros: while quarters.len() < index {
            quarters.push_reserved(0);
        }
        quarters.push_reserved(quarter);
    }
}
