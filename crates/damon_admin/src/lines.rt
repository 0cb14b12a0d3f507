ghost use Rattle.std.specs.Prelude.{◌≡◌, ◌+◌, ◌≤◌, ◌<◌, Ok, Err, None, IfOk, IfErr, IfSome, [], drop, length};
ghost use Rattle.line_text.specs.Parts.{parts};
ghost use Rattle.damon_admin.specs.Kept.{IsTaken, line_said};
ghost use Rattle.damon_admin.specs.Lines.{context_line, is_context, lines_said, split_from};

use damon_control::ScriptFault;
use line_text::split_line;
use script_lines::{ScriptKind, same_word};

/// The most contexts of an input: their numbers are below this.
pub const CONTEXTS: u32 = 8;

// A line of a context, as the context has it.
#[derive(Clone, Copy)]
pub struct OwnLine<'a> {
    pub context: u32,
    pub line: &'a [u8],
}

// A line that is taken from the front of a text, and how many bytes it takes there with its LF.
#[derive(Clone, Copy)]
pub struct TakenLine<'a> {
    pub own: OwnLine<'a>,
    pub used: usize,
}

// Reads the header of an input. Gives the number of its bytes, with its LF.
pub fn read_header(input: &[u8]) -> Result<usize, ScriptFault>
    ensures inside { IfOk result (λ used. used ≤ length input.now) }
    ensures ok { IfOk result (λ used.
        lines_said input.now ≡ split_from 2 (parts 10 (drop used input.now))) }
    ensures fault { IfErr result (λ fault. lines_said input.now ≡ Err fault) }
{
    let (line, rest) = split_line(input);
    let Some(_rest) = rest else {
        return Err(ScriptFault {
            line: 1,
            kind: ScriptKind::Cut,
        });
    };
    if !same_word(line, b"damon admin 1") {
        return Err(ScriptFault {
            line: 1,
            kind: ScriptKind::Header,
        });
    }
    Ok(line.len() + 1)
}

// Takes the next line of a context, which is this line of the input. `None` where the text is empty.
pub fn take_line(text: &[u8], number: u64) -> Result<Option<TakenLine>, ScriptFault>
    ensures line { IfOk result (λ answer. IfSome answer (λ t. IsTaken number text.now t)) }
    ensures end { IfOk result (λ answer.
        answer ≡ None → split_from number (parts 10 text.now) ≡ Ok []) }
    ensures fault { IfErr result (λ fault. split_from number (parts 10 text.now) ≡ Err fault) }
{
    if text.is_empty() {
        return Ok(None);
    }
    let (line, rest) = split_line(text);
    let Some(_rest) = rest else {
        return Err(ScriptFault {
            line: number,
            kind: ScriptKind::Cut,
        });
    };
    match read_line(line) {
        Ok(own) => Ok(Some(TakenLine {
            own,
            used: line.len() + 1,
        })),
        Err(kind) => Err(ScriptFault { line: number, kind }),
    }
}

// Reads the line of a context.
fn read_line(line: &[u8]) -> Result<OwnLine, ScriptKind>
    ensures exact { line_said result ≡ context_line line.now }
    ensures context { IfOk result (λ own. own.context < CONTEXTS) }
{
    match line {
        [digit, b' ', own @ ..] if is_context(*digit) => Ok(OwnLine {
            context: u32::from(*digit - b'0'),
            line: own,
        }),
        _ => Err(ScriptKind::Form),
    }
}

// Whether a byte is the digit of a context.
fn is_context(digit: u8) -> bool
    ensures { result ≡ is_context digit }
{
    (b'0'..=b'7').contains(&digit)
}

// The bytes from an index on.
pub fn rest_from(bytes: &[u8], at: usize) -> &[u8]
    requires { at ≤ length bytes.now }
    ensures { result.now ≡ drop at bytes.now }
{
    &bytes[at..]
}
