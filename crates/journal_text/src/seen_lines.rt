// The lines of receipts.
ghost use Rattle.std.specs.Prelude.{◌≡◌, ◌+◌, ◌*◌, ◌^◌, ◌≤◌, ◌<◌, ◌++◌, ◌∷◌, [], drop, take, length, map, vec_len, IfOk};
ghost use Rattle.std.specs.List.{AllByRecursion};
ghost use Rattle.damon_types.specs.Space.{pages_of};
ghost use Rattle.line_text.specs.Appended.{KeepsFront};
ghost use Rattle.script_lines.specs.Lines.{lines_text};
ghost use Rattle.script_lines.specs.Words.{same_word};
ghost use Rattle.journal_text.specs.Spelled.{spelled_seen};

use crate::line_parts::without_end;
use damon_types::Space;
use line_text::{address_field_before, field_before, text_before};
use run_journal::{Receipt, ReceiptList};
use script_lines::same_word;
use std::alloc::AllocError;

// Bytes enough for the line of a receipt, which has at most 87.
const LINE_ROOM: usize = 88;

// How many lines are put together in a small array before they are appended.
const GROUP: u32 = 16;

// Bytes enough for the lines of a group.
const GROUP_ROOM: usize = LINE_ROOM * GROUP as usize;

// The receipts of a worker, and the space that their pages are in.
#[derive(Clone, Copy)]
pub(crate) struct OwnReceipts<'a> {
    pub(crate) space: &'a Space,
    pub(crate) worker: u32,
    pub(crate) receipts: &'a ReceiptList,
}

// Appends the lines of the receipts of a worker from the one with index `next` on, until `out` has `limit`
// bytes or none is left, and returns the index after them.
pub(crate) fn write_seen(
    out: &mut Vec<u8>,
    own: &OwnReceipts<'_>,
    next: u32,
    limit: usize,
) -> Result<u32, AllocError>
    requires { AllByRecursion (λ r. r.page < pages_of own.now.space.now) own.now.receipts.now.list }
    ensures ok { IfOk result (λ at. out.new.items
        ++ lines_text (map (spelled_seen own.now.space.now own.now.worker)
        (drop at own.now.receipts.now.list))
        ≡ out.old.items
        ++ lines_text (map (spelled_seen own.now.space.now own.now.worker)
        (drop next own.now.receipts.now.list))) }
    ensures stops { IfOk result (λ at. at < length own.now.receipts.now.list → limit ≤ vec_len out.new) }
    ensures kept { KeepsFront out.old.items out.new.items }
{
    let mut lines = [0; GROUP_ROOM];
    let mut at = next;
    'groups: while at < own.receipts.len() {
        if out.len() >= limit {
            return Ok(at);
        }
        let count = GROUP.min(own.receipts.len() - at);
        let start = group_before(&mut lines, own, at, count);
        out.extend_from_slice(&lines[start..])?;
        at += count;
    }
    Ok(at)
}

// Writes the lines of `count` receipts from one on so that they end where the array ends, the last of them
// first, and returns the index where they begin.
fn group_before(lines: &mut [u8], own: &OwnReceipts<'_>, from: u32, count: u32) -> usize
    requires pages { AllByRecursion (λ r. r.page < pages_of own.now.space.now) own.now.receipts.now.list }
    requires few { from + count ≤ length own.now.receipts.now.list }
    requires sum { from + count < 2 ^ 32 }
    requires room { 87 * count ≤ length lines.old }
    ensures start { result ≤ length lines.new }
    ensures len { length lines.new ≡ length lines.old }
    ensures written { drop result lines.new
        ≡ lines_text (map (spelled_seen own.now.space.now own.now.worker)
        (take count (drop from own.now.receipts.now.list))) }
{
    let mut start = lines.len();
    let mut left = count;
    'lines: while left > 0 {
        left -= 1;
        start = seen_before(
            lines,
            start,
            own.space,
            own.worker,
            &own.receipts.get(from + left),
        );
    }
    start
}

/// Whether a line is the one spelling of a receipt.
pub fn is_seen_line(space: &Space, worker: u32, receipt: &Receipt, line: &[u8]) -> bool
    requires { receipt.now.page < pages_of space.now }
    ensures { result ≡ same_word line.now (spelled_seen space.now worker receipt.now) }
{
    let mut written = [0; LINE_ROOM];
    let start = seen_before(&mut written, LINE_ROOM, space, worker, receipt);
    same_word(line, without_end(&written[start..]))
}

// Writes the line of a receipt so that it ends right before index `end`, and returns the index where it
// begins.
fn seen_before(line: &mut [u8], end: usize, space: &Space, worker: u32, receipt: &Receipt) -> usize
    requires page { receipt.now.page < pages_of space.now }
    requires room { 87 ≤ end }
    requires within { end ≤ length line.old }
    ensures start { result ≤ end }
    ensures most { end ≤ result + 87 }
    ensures written { drop result line.new
        ≡ lines_text (spelled_seen space.now worker receipt.now ∷ []) ++ drop end line.old }
{
    let place = space.addr_of(receipt.page);
    let tag_end = text_before(line, end, b"\n");
    let addr_end = field_before(line, tag_end, b" ", receipt.tag);
    let target_end = address_field_before(line, addr_end, b" ", place.addr);
    let worker_end = field_before(line, target_end, b" ", u64::from(place.target));
    field_before(line, worker_end, b"seen ", u64::from(worker))
}
