ghost use Rattle.std.specs.Prelude.{◌≡◌, ◌<◌, ◌↔◌, IsTrue, IfSome, length};
ghost use Rattle.std.specs.Option.{option_copied};
ghost use Rattle.line_text.specs.Line.{after_prefix, first_word, view_pair};

use crate::SPACE;
use crate::parts::next_part;

/// The first word of a line, and the line after the space that follows it. `None` if the line has
/// no space: then it is one word.
pub fn next_word(line: &[u8]) -> Option<(&[u8], &[u8])>
    ensures exact { view_pair result ≡ first_word line.now }
    ensures shorter { IfSome result (λ x. length x.1.now < length line.now) }
{
    next_part(line, SPACE)
}

/// The line without the prefix `front`, or `None` if the line does not begin with it.
pub fn strip<'a>(line: &'a [u8], front: &[u8]) -> Option<&'a [u8]>
    ensures exact { option_copied result ≡ after_prefix front.now line.now }
{
    if line.starts_with(front) {
        Some(&line[front.len()..])
    } else {
        None
    }
}

/// Whether two texts have the same bytes.
pub fn same_text(a: &[u8], b: &[u8]) -> bool
    ensures { IsTrue result ↔ (a.now ≡ b.now) }
{
    a == b
}
