// Touch lines, which most scripts have the most of, read in one pass over their bytes.
ghost use Rattle.std.specs.Prelude.{◌≡◌, ℕ, ◌<◌, ◌^◌, ◌++◌, List, Some, IfSome, codes};
ghost use Rattle.std.specs.Fmt.{decimal};
ghost use Rattle.damon_types.specs.Space.{pages_of};
ghost use Rattle.line_text.specs.Leading.{view_leading};
ghost use Rattle.script_lines.specs.Touches.{BeginsWithTouch};

use damon_types::Space;
use line_text::{leading_address, leading_number, strip};

/// The page of the touch line at the front of a text, and the text after that line; `None` if no touch line
/// of a page of the space stands there. A shortcut before the reader of any line.
pub fn leading_touch<'a>(space: &Space, text: &'a [u8]) -> Option<(u32, &'a [u8])>
    ensures line { IfSome result (λ x. BeginsWithTouch space.now text.now x.0 x.1.now) }
    ensures below { IfSome result (λ x. x.0 < pages_of space.now) }
    ensures found { (page : ℕ) (rest : List ℕ) → BeginsWithTouch space.now text.now page rest
        → view_leading result ≡ Some (page, rest) }
{
    let (target, words) = leading_target(text, b"touch ")?;
    let (addr, words) = leading_address(words)?;
    let rest = strip(words, b"\n")?;
    let page = space.page_of(target, addr)?;
    Some((page, rest))
}

// The target of a line that begins with this word and a space, and the text from its address on.
#[inline(always)]
#[tactic(auto, using(line_text::proofs::Lemmas::leading_parts))]
pub(crate) fn leading_target<'a>(text: &'a [u8], word: &[u8]) -> Option<(u32, &'a [u8])>
    ensures spelled { IfSome result (λ x.
        text.now ≡ word.now ++ (decimal x.0 ++ (codes " " ++ x.1.now))) }
    ensures fits { IfSome result (λ x. x.0 < 2 ^ 32) }
    ensures found { (target : ℕ) (rest : List ℕ) → target < 2 ^ 32
        → text.now ≡ word.now ++ (decimal target ++ (codes " " ++ rest))
        → view_leading result ≡ Some (target, rest) }
{
    let words = strip(text, word)?;
    let (target, words) = leading_number(words, u64::from(u32::MAX))?;
    let words = strip(words, b" ")?;
    Some((target as u32, words))
}
