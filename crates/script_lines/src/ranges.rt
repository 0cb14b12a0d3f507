// Range lines, which a long commit has the most of, read in one pass over their bytes.
ghost use Rattle.std.specs.Prelude.{◌≡◌, ℕ, ◌<◌, ◌^◌, ◌∷◌, ◌++◌, List, Some, IfSome, codes, option_map};
ghost use Rattle.damon_types.specs.declared.range.RangeSpec.{RangeSpec as range_spec};
ghost use Rattle.line_text.specs.Address.{spelled_address};
ghost use Rattle.script_lines.specs.Fits.{FitsRange};
ghost use Rattle.script_lines.specs.Spelling.{spelled_range};

use crate::touches::leading_target;
use damon_types::RangeSpec;
use line_text::{leading_address, leading_number, strip};

/// The range line at the front of a text, and the text after that line; `None` if no range line stands
/// there. A shortcut before the reader of any line.
pub fn leading_range(text: &[u8]) -> Option<(RangeSpec, &[u8])>
    ensures line { IfSome result (λ x. text.now ≡ spelled_range x.0 ++ 10 ∷ x.1.now) }
    ensures fits { IfSome result (λ x. FitsRange x.0) }
    ensures found { (range : range_spec) (rest : List ℕ) → FitsRange range
        → text.now ≡ spelled_range range ++ 10 ∷ rest
        → option_map {U = range_spec × List ℕ} (λ x. (x.0, x.1.now)) result ≡ Some (range, rest) }
{
    let (target, words) = leading_target(text, b"range ")?;
    let (from, to, words) = leading_addresses(words)?;
    let (class, words) = leading_number(words, u64::from(u8::MAX))?;
    let rest = strip(words, b"\n")?;
    let range = RangeSpec {
        target,
        from,
        to,
        class: class as u8,
    };
    Some((range, rest))
}

// Two addresses at the front of a text, each with a space after it, and the text after these.
#[tactic(auto, using(line_text::proofs::Lemmas::leading_parts))]
fn leading_addresses(text: &[u8]) -> Option<(u64, u64, &[u8])>
    ensures spelled { IfSome result (λ x. text.now
        ≡ spelled_address x.0 ++ (codes " " ++ (spelled_address x.1 ++ (codes " " ++ x.2.now)))) }
    ensures fits { IfSome result (λ x. (x.0 < 2 ^ 64) × (x.1 < 2 ^ 64)) }
    ensures found { (from to : ℕ) (rest : List ℕ) → from < 2 ^ 64 → to < 2 ^ 64
        → text.now ≡ spelled_address from ++ (codes " " ++ (spelled_address to ++ (codes " " ++ rest)))
        → option_map {U = ℕ × ℕ × List ℕ} (λ x. (x.0, x.1, x.2.now)) result ≡ Some (from, to, rest) }
{
    let (from, words) = leading_address(text)?;
    let words = strip(words, b" ")?;
    let (to, words) = leading_address(words)?;
    let words = strip(words, b" ")?;
    Some((from, to, words))
}
