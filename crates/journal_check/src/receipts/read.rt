// Reading the receipts of a journal text ahead of its entries.
ghost use Rattle.std.specs.Prelude.{◌≡◌, ◌≤◌, ◌<◌, length, All, IfOk, IfSome};
ghost use Rattle.std.specs.Option.{option_copied};
ghost use Rattle.damon_types.specs.Space.{pages_of};
ghost use Rattle.line_text.specs.Parts.{parts, parts_left};
ghost use Rattle.damon_control.specs.declared.reader.TheConstants.{MAX_BYTES};
ghost use Rattle.journal_check.specs.Ahead.{after_receipts, seen_ahead, seen_next, seen_numbers, seen_said};
ghost use Rattle.journal_text.specs.SeenLine.{seen_line, seen_of};

use crate::receipts::front::leading_seen;
use crate::receipts::list::{Seen, SeenList};
use damon_types::Space;
use journal_text::is_seen_line;
use line_text::split_line;
use run_journal::Receipt;
use script_lines::{
    ScriptKind, arguments, four_words, read_8, read_32, read_64, read_byte_address, same_word,
};
use std::alloc::{AllocError, Global};

// The numbers of a `seen` line: its worker, target, address and tag.
type SeenNumbers = (u8, (u32, (u64, u64)));

// The receipts of a text of at most `MAX_BYTES` bytes, which is what follows the head of a journal.
// Allocates.
pub(crate) fn read_receipts(
    alloc: Global,
    space: &Space,
    text: &[u8],
) -> Result<SeenList, AllocError>
    requires { length text.now ≤ MAX_BYTES }
    ensures exact { IfOk result (λ seen. seen
        ≡ seen_ahead space.now (after_receipts (parts 10 text.now))) }
    ensures within { IfOk result (λ seen. All (λ x. x.1.page < pages_of space.now) seen) }
    ensures few { IfOk result (λ seen. length seen ≤ length text.now) }
{
    match after_receipts(text) {
        Some(lines) => read_seen_lines(alloc, space, lines),
        None => Ok(SeenList::new(alloc)),
    }
}

// What follows the first line `receipts`.
fn after_receipts(text: &[u8]) -> Option<&[u8]>
    ensures exact { parts_left 10 (option_copied result) ≡ after_receipts (parts 10 text.now) }
    ensures shorter { IfSome result (λ rest. length rest.now < length text.now) }
{
    let mut rest = Some(text);
    'lines: while let Some(left) = rest {
        let (line, more) = split_line(left);
        if same_word(line, b"receipts") {
            return more;
        }
        rest = more;
    }
    None
}

// The receipts of the lines of a text, up to the first line that says none.
fn read_seen_lines(alloc: Global, space: &Space, lines: &[u8]) -> Result<SeenList, AllocError>
    requires { length lines.now ≤ MAX_BYTES }
    ensures exact { IfOk result (λ seen. seen ≡ seen_ahead space.now (parts 10 lines.now)) }
    ensures within { IfOk result (λ seen. All (λ x. x.1.page < pages_of space.now) seen) }
    ensures few { IfOk result (λ seen. length seen ≤ length lines.now) }
{
    let mut seen = SeenList::new(alloc);
    let mut rest = lines;
    'lines: while let Some((receipt, next)) = next_seen(space, rest) {
        seen.push(receipt)?;
        rest = next;
    }
    Ok(seen)
}

// The receipt of the first line of a text, and the text after that line.
#[tactic(auto, using(crate::proofs::SeenFront::leading_seen_is_read))]
fn next_seen<'a>(space: &Space, text: &'a [u8]) -> Option<(Seen, &'a [u8])>
    ensures exact { seen_next space.now result ≡ seen_ahead space.now (parts 10 text.now) }
    ensures within { IfSome result (λ x. x.0.1.page < pages_of space.now) }
    ensures shorter { IfSome result (λ x. length x.1.now < length text.now) }
{
    match leading_seen(space, text) {
        Some((receipt, rest)) => Some((receipt, rest)),
        None => next_line(space, text),
    }
}

// The same, by the reader of any line.
#[tactic(auto, using(crate::proofs::SeenTaken::line_says))]
fn next_line<'a>(space: &Space, text: &'a [u8]) -> Option<(Seen, &'a [u8])>
    ensures exact { seen_next space.now result ≡ seen_ahead space.now (parts 10 text.now) }
    ensures within { IfSome result (λ x. x.0.1.page < pages_of space.now) }
    ensures shorter { IfSome result (λ x. length x.1.now < length text.now) }
{
    match split_line(text) {
        (line, Some(rest)) => {
            let receipt = read_seen(space, line)?;
            Some((receipt, rest))
        }
        (_, None) => None,
    }
}

// The receipt of a line, in its one spelling.
fn read_seen(space: &Space, line: &[u8]) -> Option<Seen>
    ensures exact { result ≡ seen_line space.now line.now }
    ensures within { IfSome result (λ x. x.1.page < pages_of space.now) }
{
    let (worker, receipt) = said_by(space, line)?;
    if is_seen_line(space, u32::from(worker), &receipt, line) {
        Some((worker, receipt))
    } else {
        None
    }
}

// The receipt of a line in any spelling.
fn said_by(space: &Space, line: &[u8]) -> Option<Seen>
    ensures exact { result ≡ seen_of space.now (seen_said line.now) }
    ensures within { IfSome result (λ x. x.1.page < pages_of space.now) }
{
    let Ok((worker, (target, (addr, tag)))) = read_seen_words(line) else {
        return None;
    };
    let page = space.page_of(target, addr)?;
    Some((worker, Receipt { page, tag }))
}

// The numbers of a line.
fn read_seen_words(line: &[u8]) -> Result<SeenNumbers, ScriptKind>
    ensures { result ≡ seen_said line.now }
{
    let (worker, target, addr, tag) = four_words(arguments(b"seen", line)?)?;
    read_numbers(worker, target, addr, tag)
}

// The numbers of four words.
fn read_numbers(
    worker: &[u8],
    target: &[u8],
    addr: &[u8],
    tag: &[u8],
) -> Result<SeenNumbers, ScriptKind>
    ensures { result ≡ seen_numbers (worker.now, target.now, addr.now, tag.now) }
{
    let worker = read_8(worker)?;
    let target = read_32(target)?;
    let addr = read_byte_address(addr)?;
    let tag = read_64(tag)?;
    Ok((worker, (target, (addr, tag))))
}
