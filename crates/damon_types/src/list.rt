ghost use Rattle.std.specs.Prelude.{◌≡◌, ◌==◌, ◌+◌, ◌-◌, ◌^◌, ◌<◌, ◌≤◌, Some, [], ◌∷◌, ◌++◌, length, slice_get, OnOk, OnErr};

use crate::{RangeSpec, SlotChange};
use std::alloc::{AllocError, Global};
use std::marker::Model;

/// A list that grows: of range specs, slot changes, commands and the like. It has fewer than 2^32
/// items, and keeps the allocator that it was made with.
#[derive(Debug, Drop)]
pub struct PlainList<T> {
    items: Vec<T>,
}

/// Range specs, in the order in which the user gives them.
pub type RangeSpecs = PlainList<RangeSpec>;

/// Changes of slots, in order.
pub type SlotChanges = PlainList<SlotChange>;

impl<T> Model for PlainList<T> {
    ghost use Rattle.std.specs.Prelude.{◌<◌, ◌^◌, length, vec_capacity, vec_len};
    ghost use Rattle.damon_types.specs.Listed.{Listed, spare_of};

    ghost Value = { Listed T };

    ghost view = { λ l. record {
      list = l.items.items;
      spare = spare_of (vec_capacity l.items) (vec_len l.items);
    } };

    ghost invariant = { λ l. vec_len l.items < 2 ^ 32 };
}

impl<T> PlainList<T> {
    /// The empty list. Does not allocate.
    pub fn new(alloc: Global) -> PlainList<T>
        ensures { result ≡ record { list = []; spare = 0 } }
    {
        PlainList {
            items: Vec::new(alloc),
        }
    }

    /// The number of items.
    pub fn len(&self) -> u32
        ensures { result ≡ length self.now.list }
    {
        self.items.len() as u32
    }

    /// Whether the list is empty.
    pub fn is_empty(&self) -> bool
        ensures { result ≡ (length self.now.list == 0) }
    {
        self.items.is_empty()
    }

    /// The item with this index, which must be below [`PlainList::len`].
    pub fn get(&self, index: u32) -> &T
        requires { index < length self.now.list }
        ensures { slice_get self.now.list index ≡ Some result.now }
    {
        &self.items[index as usize]
    }

    /// The items in order.
    pub fn as_slice(&self) -> &[T]
        ensures { result.now ≡ self.now.list }
    {
        &self.items
    }
}

impl<T: Drop> PlainList<T> {
    /// Appends an item, which takes at most one place of the spare room. Allocates; on an error the list
    /// is unchanged and the item is dropped. The list must have fewer than 2^32 - 1 items.
    pub fn push(&mut self, item: T) -> Result<(), AllocError>
        requires { length self.old.list < 2 ^ 32 - 1 }
        ensures ok { OnOk result (self.new.list ≡ self.old.list ++ item ∷ []) }
        ensures spare { OnOk result (self.old.spare - 1 ≤ self.new.spare) }
        ensures err { OnErr result (self.new ≡ self.old) }
    {
        self.items.reserve(1)?;
        self.items.push_reserved(item);
        Ok(())
    }

    /// How many more items fit without an allocation, by [`PlainList::put`].
    pub fn spare(&self) -> u32
        ensures { result ≡ self.now.spare }
    {
        (self.items.capacity().min(u32::MAX as usize) - self.items.len()) as u32
    }

    /// Makes room for at least `extra` more items; with them the list must have fewer than 2^32.
    /// Allocates; on an error the list is unchanged.
    pub fn reserve(&mut self, extra: u32) -> Result<(), AllocError>
        requires { length self.old.list + extra < 2 ^ 32 }
        ensures list { self.new.list ≡ self.old.list }
        ensures ok { OnOk result (extra ≤ self.new.spare) }
        ensures spare { self.old.spare ≤ self.new.spare }
        ensures err { OnErr result (self.new ≡ self.old) }
    {
        self.items.reserve(extra as usize)
    }

    /// Appends an item. There must be room for it; does not allocate.
    pub fn put(&mut self, item: T)
        requires { 1 ≤ self.old.spare }
        ensures { self.new
            ≡ record { list = self.old.list ++ item ∷ []; spare = self.old.spare - 1 } }
    {
        self.items.push_reserved(item);
    }
}
