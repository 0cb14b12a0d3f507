ghost use Rattle.std.specs.Prelude.{◌≡◌, ◌<◌, ◌≤◌, [], false, true, Err, Ok, None, IfOk, IfSome, OnErr, OnOk, length};
ghost use Rattle.damon_control.specs.Left.{FaultOf};
ghost use Rattle.damon_admin.specs.Admin.{DoesLine, IsMonitorOf, IsScript};
ghost use Rattle.damon_admin.specs.Lines.{lines_said};

use crate::context::{Context, go_on_at, open_contexts};
use crate::gather::gather;
use crate::lines::{CONTEXTS, read_header, rest_from, take_line};
use crate::voice::speak;
use damon_control::{MAX_BYTES, ReadFail, scripts_are_sound};
use damon_core::Monitor;
use script_run::each_script_is_bound;
use std::alloc::{AllocError, Global};
use std::marker::Model;
use text_io::{Filled, PIECE, TextSource};

/// Why no contexts were made of an input: its first line that is refused, or that memory ran out.
pub type AdminFail = ReadFail;

/// The contexts of an input, which go on line by line.
#[derive(Drop)]
pub struct Admin {
    input: Vec<u8>,
    // How many bytes of it, and how many lines after the header, are done.
    at: usize,
    done: usize,
    // Memory has run out.
    failed: bool,
    contexts: Vec<Context>,
    // What a context writes at the line that is being done, without its digit.
    said: Vec<u8>,
}

impl Model for Admin {
    ghost use Rattle.damon_admin.specs.Admin.{AdminView};
    ghost use Rattle.damon_admin.specs.Kept.{IsAdmin, admin_of};

    ghost Value = { AdminView };

    ghost view = { λ a. admin_of a.input.items a.done a.failed };

    ghost invariant = { λ a. IsAdmin a.input.items a.at a.done a.failed a.contexts.items };
}

impl Admin {
    /// The contexts of an input of at most [`MAX_BYTES`] bytes, of which no line is done. Takes memory, for a
    /// copy of the input too.
    ///
    /// # Errors
    ///
    /// As those of [`Admin::of`].
    pub fn new(alloc: Global, bytes: &[u8]) -> Result<Admin, AdminFail>
        requires { length bytes.now ≤ MAX_BYTES }
        ensures lines { IfOk result (λ a. lines_said bytes.now ≡ Ok a.left) }
        ensures first { IfOk result (λ a. a.done ≡ []) }
        ensures ready { IfOk result (λ a. a.failed ≡ false) }
        ensures fault { FaultOf result (lines_said bytes.now) }
    {
        Admin::of(alloc, Vec::from_slice(alloc, bytes)?)
    }

    /// The contexts of an input of at most [`MAX_BYTES`] bytes, which is kept as it is. None of its lines is
    /// done. Takes memory.
    ///
    /// # Errors
    ///
    /// `Script` with the first line of the input that is refused: the input ends before its LF (`Cut`), it
    /// is line 1 and not the header (`Header`), or it is a later line and does not begin with the digit of a
    /// context and a space (`Form`). What is wrong within a context is no error. `Memory` if memory runs out.
    pub fn of(alloc: Global, input: Vec<u8>) -> Result<Admin, AdminFail>
        requires { length input.items ≤ MAX_BYTES }
        ensures lines { IfOk result (λ a. lines_said input.items ≡ Ok a.left) }
        ensures first { IfOk result (λ a. a.done ≡ []) }
        ensures ready { IfOk result (λ a. a.failed ≡ false) }
        ensures fault { FaultOf result (lines_said input.items) }
    {
        let gathered = gather(alloc, &input)?;
        let at = read_header(&input)?;
        let contexts = open_contexts(alloc, gathered)?;
        Ok(Admin {
            input,
            at,
            done: 0,
            failed: false,
            contexts,
            said: Vec::new(alloc),
        })
    }

    /// Does the next line of the input, and appends to `out` what its context writes at it. False where no
    /// line is left. Takes memory. If memory runs out, nothing of the line's text is appended, the line
    /// counts as not done, and every later call fails.
    pub fn next(&mut self, alloc: Global, out: &mut Vec<u8>) -> Result<bool, AllocError>
        ensures line { result ≡ Ok true → DoesLine self.old self.new out.old.items out.new.items }
        ensures end { result ≡ Ok false → self.old.left ≡ [] }
        ensures over { result ≡ Ok false → self.new ≡ self.old }
        ensures silent { result ≡ Ok false → out.new.items ≡ out.old.items }
        ensures last { self.old.left ≡ [] → self.old.failed ≡ false → result ≡ Ok false }
        ensures err { OnErr result (out.new.items ≡ out.old.items) }
        ensures stays { OnErr result (self.new ≡ record self.old { failed = true }) }
        ensures failed { self.old.failed ≡ true → OnOk result ⊥ }
    {
        if self.failed {
            return Err(AllocError);
        }
        self.do_line(alloc, out)
    }

    // The same, where memory has not run out.
    fn do_line(&mut self, alloc: Global, out: &mut Vec<u8>) -> Result<bool, AllocError>
        requires { self.old.failed ≡ false }
        ensures line { result ≡ Ok true → DoesLine self.old self.new out.old.items out.new.items }
        ensures end { result ≡ Ok false → self.old.left ≡ [] }
        ensures over { result ≡ Ok false → self.new ≡ self.old }
        ensures silent { result ≡ Ok false → out.new.items ≡ out.old.items }
        ensures last { self.old.left ≡ [] → result ≡ Ok false }
        ensures err { OnErr result (out.new.items ≡ out.old.items) }
        ensures stays { OnErr result (self.new ≡ record self.old { failed = true }) }
    {
        // What was read in `new` is read again, so no line is refused.
        let Ok(Some(taken)) = take_line(rest_from(&self.input, self.at), 0) else {
            return Ok(false);
        };
        // It stays set if memory runs out: a context may then be in the middle of a command.
        self.failed = true;
        self.said.clear();
        let context = taken.own.context;
        go_on_at(
            &mut self.contexts,
            context,
            alloc,
            taken.own.line,
            &mut self.said,
        )?;
        speak(out, context, &self.said)?;
        self.at += taken.used;
        self.done += 1;
        self.failed = false;
        Ok(true)
    }

    /// The monitor of a context, as it stands after the commands of the context's lines so far. `None` where
    /// these lines are no script. Once memory has run out, the monitor may stand in any state.
    pub fn context(&self, context: u32) -> Option<&Monitor>
        requires { context < CONTEXTS }
        ensures some { IfSome result (λ _. IsScript context self.now) }
        ensures none { result ≡ None → IsScript context self.now → ⊥ }
        ensures stands { IfSome result (λ m. self.now.failed ≡ false
            → IsMonitorOf context self.now m.now) }
    {
        // For their clauses alone: each state that a script leads to is bound.
        scripts_are_sound();
        each_script_is_bound();
        self.contexts[context as usize].monitor()
    }
}

// What the lines that are left write.
impl TextSource for Admin {
    ghost use Rattle.std.specs.Prelude.{◌≡◌, length};
    ghost use Rattle.damon_admin.specs.Admin.{left_text};

    ghost left = { λ a text. left_text a ≡ text };

    ghost steps = { λ a. length a.left };

    fn fill(&mut self, alloc: Global, out: &mut Vec<u8>) -> Result<Filled, AllocError> {
        'lines: while out.len() < PIECE {
            if !self.next(alloc, out)? {
                return Ok(Filled::End);
            }
        }
        Ok(Filled::Piece)
    }
}
