// The atomic steps, on seats as the table knows them.
ghost use Rattle.std.specs.Prelude.{◌≡◌, ℕ, ◌*◌, ◌<◌, ◌^◌, []};
ghost use Rattle.page_words.specs.declared.view.Entry.TheVariants.{Clear, Load};
ghost use Rattle.page_words.specs.declared.view.View.TheVariants.{Toucher};
ghost use Rattle.page_words.specs.Clears.{pass_of};
ghost use Rattle.page_words.specs.Keeping.{TouchKeeps, ClearKeeps, LoadKeeps, SplitKeeps, GatherKeeps};
ghost use Rattle.page_words.specs.Steps.{after_touch, with_entry, after_split, after_gather, Finds};
ghost use Rattle.page_words.specs.Views.{TagsRiseIn};

use crate::rule::{Clears, Gathers, Loads, Numbered, PageWordRule, Splits, Touches};
use crate::view::View;
use atomic_table::{Seat, Table};
use std::alloc::Global;

// No step uses a slot, so the type of slots does not matter.
pub(crate) type Words = Table<u8, View, u32, PageWordRule, Global>;

pub(crate) type RawSeat = Seat<u8, View>;

// Sets the lowest bit of a page's word, and returns the pass that the word named.
pub(crate) fn touch(table: &Words, seat: &mut RawSeat, page: u32) -> u64
    requires table { seat.old.table_id ≡ table.now.shared.table_id }
    requires page { page < table.now.shared.table_id.words }
    requires keeps { TouchKeeps table.now.shared.key table.now.shared.table_id.slots seat.old.id seat.old.me page }
    ensures table { seat.new.table_id ≡ seat.old.table_id }
    ensures me { seat.new.me ≡ (after_touch seat.old.me.0 page result, seat.old.me.1) }
    ensures tags { TagsRiseIn seat.new.me.0 }
{
    table.shared.fetch_or::<Touches>(seat, page as usize, 1) / 2
}

// Replaces a page's word by twice the pass, and returns the old word.
pub(crate) fn clear(table: &Words, seat: &mut RawSeat, page: u32, pass: u64) -> u64
    requires table { seat.old.table_id ≡ table.now.shared.table_id }
    requires page { page < table.now.shared.table_id.words }
    requires pass { pass < 2 ^ 63 }
    requires keeps { ClearKeeps table.now.shared.key table.now.shared.table_id.slots seat.old.id seat.old.me page pass }
    ensures table { seat.new.table_id ≡ seat.old.table_id }
    ensures me { seat.new.me ≡ (with_entry seat.old.me.0 (Clear page pass), seat.old.me.1) }
    ensures found { Finds seat.old.me.0 page result }
{
    table.shared.swap::<Clears>(seat, page as usize, 2 * pass)
}

// Returns a page's word.
pub(crate) fn load(table: &Words, seat: &mut RawSeat, page: u32) -> u64
    requires table { seat.old.table_id ≡ table.now.shared.table_id }
    requires page { page < table.now.shared.table_id.words }
    requires keeps { LoadKeeps table.now.shared.key table.now.shared.table_id.slots seat.old.id seat.old.me page }
    ensures table { seat.new.table_id ≡ seat.old.table_id }
    ensures me { seat.new.me ≡ (with_entry seat.old.me.0 (Load page result), seat.old.me.1) }
    ensures found { Finds seat.old.me.0 page result }
{
    table.shared.load::<Loads>(seat, page as usize)
}

// Splits off the seat of a worker. W carries the worker's number for the proof.
pub(crate) fn split<W: Numbered>(table: &Words, seat: &mut RawSeat, worker: u32) -> RawSeat
    requires number { W.number ≡ worker }
    requires table { seat.old.table_id ≡ table.now.shared.table_id }
    requires some { 0 < table.now.shared.table_id.words }
    requires keeps { SplitKeeps ℕ table.now.shared.key seat.old.id seat.old.me.0 worker }
    ensures table { seat.new.table_id ≡ seat.old.table_id }
    ensures me { seat.new.me ≡ (after_split seat.old.me.0, seat.old.me.1) }
    ensures new_table { result.table_id ≡ seat.old.table_id }
    ensures new_me { result.me ≡ (Toucher worker [], []) }
{
    table.shared.split_seat::<Splits<W>>(seat)
}

// Gathers another seat.
pub(crate) fn gather(table: &Words, seat: &mut RawSeat, other: RawSeat)
    requires table { seat.old.table_id ≡ table.now.shared.table_id }
    requires other_table { other.table_id ≡ table.now.shared.table_id }
    requires some { 0 < table.now.shared.table_id.words }
    requires no_slot { other.me.1 ≡ [] }
    requires keeps { GatherKeeps ℕ table.now.shared.key seat.old.id seat.old.me.0 other.id other.me.0 }
    ensures table { seat.new.table_id ≡ seat.old.table_id }
    ensures me { seat.new.me ≡ (after_gather seat.old.me.0 other.me.0, seat.old.me.1) }
{
    table.shared.join_seat::<Gathers>(seat, other);
}
