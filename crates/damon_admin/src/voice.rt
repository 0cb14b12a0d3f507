ghost use Rattle.std.specs.Prelude.{◌≡◌, ◌++◌, ◌<◌, ◌+◌, OnErr, OnOk};
ghost use Rattle.line_text.specs.Appended.{KeepsFront};
ghost use Rattle.damon_admin.specs.Voice.{spoken};

use crate::lines::CONTEXTS;
use line_text::{split_line, whole_or_nothing};
use std::alloc::AllocError;

// Appends the lines of a text as a context says them: with its digit and a space before each. On an error
// nothing is appended.
pub fn speak(out: &mut Vec<u8>, context: u32, text: &[u8]) -> Result<(), AllocError>
    requires { context < CONTEXTS }
    ensures ok { OnOk result (out.new.items ≡ out.old.items ++ spoken context text.now) }
    ensures err { OnErr result (out.new.items ≡ out.old.items) }
{
    let before = out.len();
    let said = speak_lines(out, context, text);
    whole_or_nothing(out, before, said)
}

// The same, but that on an error some of the lines may have been appended.
#[tactic(auto, using(line_text::proofs::Lemmas::appends))]
fn speak_lines(out: &mut Vec<u8>, context: u32, text: &[u8]) -> Result<(), AllocError>
    requires { context < CONTEXTS }
    ensures ok { OnOk result (out.new.items ≡ out.old.items ++ spoken context text.now) }
    ensures kept { KeepsFront out.old.items out.new.items }
{
    let digit = b'0' + context as u8;
    let mut left = text;
    'lines: loop {
        let (line, rest) = split_line(left);
        let Some(rest) = rest else {
            return Ok(());
        };
        out.push(digit)?;
        out.push(b' ')?;
        out.extend_from_slice(line)?;
        out.push(b'\n')?;
        left = rest;
    }
}
