ghost use Rattle.std.specs.Prelude.{◌≡◌, ℕ, ◌<◌, ◌≤◌, ◌+◌, ◌∷◌, ◌++◌, [], IfOk, OnOk, List, Ok, length};
ghost use Rattle.damon_control.specs.Left.{FaultOf};
ghost use Rattle.damon_admin.specs.Kept.{AreGathered, AreWithin, line_value};
ghost use Rattle.damon_admin.specs.Lines.{ContextLine, lines_said};

use crate::lines::{CONTEXTS, OwnLine, read_header, rest_from, take_line};
use damon_control::{MAX_BYTES, ReadFail};
use std::alloc::{AllocError, Global};

// The lines of a context.
#[derive(Drop)]
pub struct Gathered {
    // Their text.
    pub text: Vec<u8>,
    // Their number.
    pub lines: u64,
}

// Gathers the lines of each context of an input.
pub fn gather(alloc: Global, input: &[u8]) -> Result<Vec<Gathered>, ReadFail>
    requires { length input.now ≤ MAX_BYTES }
    ensures ok { IfOk result (λ v. (lines : List ContextLine)
        × (lines_said input.now ≡ Ok lines) × AreGathered lines v.items) }
    ensures short { IfOk result (λ v. AreWithin (length input.now) v.items) }
    ensures fault { FaultOf result (lines_said input.now) }
{
    let mut at = read_header(input)?;
    let mut contexts = no_lines(alloc)?;
    let mut number = 2;
    'lines: while let Some(taken) = take_line(rest_from(input, at), number)? {
        add_line(&mut contexts, taken.own)?;
        at += taken.used;
        number += 1;
    }
    Ok(contexts)
}

// Contexts without lines.
fn no_lines(alloc: Global) -> Result<Vec<Gathered>, AllocError>
    ensures gathered { IfOk result (λ v. AreGathered [] v.items) }
    ensures short { IfOk result (λ v. AreWithin 0 v.items) }
{
    let mut contexts = Vec::new(alloc);
    'contexts: while contexts.len() < CONTEXTS as usize {
        contexts.push(Gathered {
            text: Vec::new(alloc),
            lines: 0,
        })?;
    }
    Ok(contexts)
}

// Adds a line to those of its context.
fn add_line(contexts: &mut Vec<Gathered>, own: OwnLine) -> Result<(), AllocError>
    requires gathered { (lines : List ContextLine) × AreGathered lines contexts.old.items }
    requires context { own.context < CONTEXTS }
    ensures gathered { OnOk result ((lines : List ContextLine) → AreGathered lines contexts.old.items
        → AreGathered (lines ++ line_value own.entry ∷ []) contexts.new.items) }
    ensures short { OnOk result ((most : ℕ) → AreWithin most contexts.old.items
        → AreWithin (most + (length own.entry.line.now + 1)) contexts.new.items) }
{
    let context = &mut contexts[own.context as usize];
    context.text.extend_from_slice(own.line)?;
    context.text.push(b'\n')?;
    context.lines += 1;
    Ok(())
}
