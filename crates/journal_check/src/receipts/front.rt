// A quick way for lines of receipts, which most journals have the most of: one pass over their bytes.
ghost use Rattle.std.specs.Prelude.{◌≡◌, ◌≤◌, ◌<◌, ◌++◌, codes, IfSome};
ghost use Rattle.std.specs.Fmt.{decimal};
ghost use Rattle.damon_types.specs.Space.{pages_of, place_of};
ghost use Rattle.line_text.specs.Address.{spelled_address};
ghost use Rattle.journal_check.specs.SeenFront.{BeginsWithSeen};
ghost use Rattle.journal_text.specs.SeenLine.{PlaceFits};

use crate::receipts::list::Seen;
use damon_types::Space;
use line_text::{leading_address, leading_number, strip};
use run_journal::Receipt;

// The receipt of the line at the front of a text, and the text after that line. A shortcut before the
// reader of any line: `None` says nothing of the front, which is then read as any other line.
pub(crate) fn leading_seen<'a>(space: &Space, text: &'a [u8]) -> Option<(Seen, &'a [u8])>
    ensures line { IfSome result (λ x. BeginsWithSeen space.now text.now x.0 x.1.now) }
    ensures below { IfSome result (λ x. x.0.1.page < pages_of space.now) }
{
    let (worker, words) = leading_field(text, b"seen ", u64::from(u8::MAX))?;
    let (page, words) = leading_page(space, words)?;
    let (tag, words) = leading_field(words, b" ", u64::MAX)?;
    let rest = strip(words, b"\n")?;
    Some(((worker as u8, Receipt { page, tag }), rest))
}

// The page of which the place is at the front of a text, after a space, and the text after it.
fn leading_page<'a>(space: &Space, text: &'a [u8]) -> Option<(u32, &'a [u8])>
    ensures spelled { IfSome result (λ x. text.now
        ≡ codes " " ++ (decimal (place_of space.now x.0).target
        ++ (codes " " ++ (spelled_address (place_of space.now x.0).addr ++ x.1.now)))) }
    ensures fits { IfSome result (λ x. PlaceFits space.now x.0) }
    ensures below { IfSome result (λ x. x.0 < pages_of space.now) }
{
    let (target, words) = leading_field(text, b" ", u64::from(u32::MAX))?;
    let (addr, rest) = spaced_address(words)?;
    let page = space.page_of(target as u32, addr)?;
    let place = space.addr_near(target as u32, page);
    if u64::from(place.target) == target && place.addr == addr {
        Some((page, rest))
    } else {
        None
    }
}

// The number at the front of a text, after these words, if it is at most `most`; and the text after it.
fn leading_field<'a>(text: &'a [u8], name: &[u8], most: u64) -> Option<(u64, &'a [u8])>
    ensures spelled { IfSome result (λ x. text.now ≡ name.now ++ (decimal x.0 ++ x.1.now)) }
    ensures most { IfSome result (λ x. x.0 ≤ most) }
{
    let words = strip(text, name)?;
    let (number, rest) = leading_number(words, most)?;
    Some((number, rest))
}

// The address at the front of a text, after a space, and the text after it.
fn spaced_address(text: &[u8]) -> Option<(u64, &[u8])>
    ensures { IfSome result (λ x. text.now ≡ codes " " ++ (spelled_address x.0 ++ x.1.now)) }
{
    let words = strip(text, b" ")?;
    let (addr, rest) = leading_address(words)?;
    Some((addr, rest))
}
