// Lines, and items of lists in JSON, that are appended in groups.
ghost use Rattle.std.specs.Prelude.{◌≡◌, ◌+◌, ◌*◌, ◌≤◌, ◌++◌, ℕ, List, length, drop, flat_map, OnOk};
ghost use Rattle.std.specs.List.{AllByRecursion};
ghost use Rattle.line_text.specs.Appended.{KeepsFront};
ghost use Rattle.snapshot_print.specs.declared.widths.TheConstants.{LINE};

use crate::widths::LINE;
use std::alloc::AllocError;

// The most lines that are appended at once.
pub(crate) const LINES_AT_ONCE: usize = 16;

// Bytes enough for a group of lines.
pub(crate) const GROUP_ROOM: usize = LINE * LINES_AT_ONCE;

// What writes for each item a line, or its text in a list in JSON. The writers are inlined into the loop over
// the items, which has their only call.
pub(crate) trait LineOf<T> {
    // The line of an item.
    ghost line: { Self → T → List ℕ };

    // What must hold of an item.
    ghost can_write: { Self → T → Type 0 };

    // Writes the line of an item so that it ends right before index `end`, and returns the index where it
    // begins.
    fn line_before(&self, bytes: &mut [u8], end: usize, item: &T) -> usize
        requires can { can_write self.now item.now }
        requires room { LINE ≤ end }
        requires within { end ≤ length bytes.old }
        ensures start { result ≤ end }
        ensures most { end ≤ result + LINE }
        ensures written { drop result bytes.new ≡ line self.now item.now ++ drop end bytes.old };
}

// Appends the lines of items, a group at a time.
pub(crate) fn print_lines<T, L: LineOf<T>>(
    out: &mut Vec<u8>,
    items: &[T],
    line_of: &L,
) -> Result<(), AllocError>
    requires { AllByRecursion (L.can_write line_of.now) items.now }
    ensures ok { OnOk result (out.new.items
        ≡ out.old.items ++ flat_map (L.line line_of.now) items.now) }
    ensures kept { KeepsFront out.old.items out.new.items }
{
    // Without items, no buffer is cleared.
    if items.is_empty() {
        return Ok(());
    }
    let mut lines = [0; GROUP_ROOM];
    let mut left = items;
    'groups: while !left.is_empty() {
        let (group, rest) = left.split_at(left.len().min(LINES_AT_ONCE));
        let start = lines_before(&mut lines, group, line_of);
        out.extend_from_slice(&lines[start..])?;
        left = rest;
    }
    Ok(())
}

// Writes the lines of items so that they end where the buffer ends, and returns the index where they
// begin: from the last item to the first, each line ends where the next one begins.
pub(crate) fn lines_before<T, L: LineOf<T>>(lines: &mut [u8], items: &[T], line_of: &L) -> usize
    requires items { AllByRecursion (L.can_write line_of.now) items.now }
    requires room { LINE * length items.now ≤ length lines.old }
    ensures start { result ≤ length lines.new }
    ensures most { length lines.new ≤ result + LINE * length items.now }
    ensures written { drop result lines.new ≡ flat_map (L.line line_of.now) items.now }
{
    let mut start = lines.len();
    let mut index = items.len();
    'items: while index > 0 {
        index -= 1;
        start = line_of.line_before(lines, start, &items[index]);
    }
    start
}
