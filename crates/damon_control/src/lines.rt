ghost use Rattle.std.specs.Prelude.{ℕ, List, [], ◌∷◌, ◌++◌, ◌≡◌, ◌+◌, ◌<◌, length, IfOk, IfErr, IfNone, IfSome, OnOk, Ok, Err};
ghost use Rattle.damon_types.specs.Space.{pages_of};
ghost use Rattle.script_lines.specs.Command.{Touch};
ghost use Rattle.damon_control.specs.Left.{IsOpen, IsShort, first_begins, reads_command, reads_on, reads_left};
ghost use Rattle.damon_control.specs.Script.{AtEnd, Body, InBody, Place, Said, at};
ghost use Rattle.damon_control.specs.declared.grammar.Grammar.{Grammar as grammar};
ghost use Rattle.damon_control.specs.declared.grammar.Grammar.TheVariants.{OfLive as of_live, OfScript as of_script};
ghost use Rattle.damon_control.specs.Live.{LiveValue as live};
ghost use Rattle.damon_control.specs.LiveView.{reads_touch, with_workers};
ghost use Rattle.script_lines.specs.Words.{begins_with};

use crate::ScriptFault;
use damon_types::Space;
use line_text::split_line;
use script_lines::{ScriptKind, first_word, leading_touch, same_word};

// A text that is read line by line.
#[derive(Drop)]
pub struct Lines<'a> {
    // What is left of it.
    pub rest: &'a [u8],
    // How many lines were taken.
    pub taken: u64,
}

impl<'a> Lines<'a> {
    // The whole of a text.
    pub fn new(text: &'a [u8]) -> Lines<'a>
        ensures rest { result.rest.now ≡ text.now }
        ensures taken { result.taken ≡ 0 }
    {
        Lines {
            rest: text,
            taken: 0,
        }
    }

    // Takes the next line, without its LF.
    #[tactic(auto, using(crate::proofs::PartLemmas::reads_line, crate::proofs::PartLemmas::begins_lines_parts))]
    pub fn take_line(&mut self) -> Result<&'a [u8], ScriptFault>
        requires { IsShort self.old }
        ensures line { IfOk result (λ line. (g : grammar) (place : Place g) →
            reads_left g place self.old ≡ reads_on g place line.now self.new) }
        ensures cut { IfErr result (λ fault. (g : grammar) (place : Place g) → IsOpen place
            → reads_left g place self.old ≡ Err fault) }
        ensures first { IfOk result (λ line. (word : List ℕ) →
            first_begins word self.old.rest.now ≡ begins_with word line.now) }
        ensures taken { IfOk result (λ _. self.new.taken ≡ self.old.taken + 1) }
        ensures shorter { IfOk result (λ _. length self.new.rest.now < length self.old.rest.now) }
        ensures small { IsShort self.new }
    {
        let (line, rest) = split_line(self.rest);
        self.rest = rest.ok_or(ScriptFault {
            line: self.taken + 1,
            kind: ScriptKind::Cut,
        })?;
        self.taken += 1;
        Ok(line)
    }

    // Takes the next line if it is a touch, and returns the page. Else nothing is taken. A touch is read by
    // a script and by a live script.
    pub fn take_touch(&mut self, space: &Space) -> Option<u32>
        requires { IsShort self.old }
        ensures said { IfSome result (λ page. (b : Body) → b.said.setup.space ≡ space.now →
            reads_left of_script (InBody b) self.old ≡ reads_command b (Touch page) self.new) }
        ensures live { IfSome result (λ page. (v : live) (ws : List (List ℕ)) (t : List ℕ)
            → v.setup.space ≡ space.now →
            reads_left of_live (InBody (with_workers v (ws ++ t ∷ []))) self.old
            ≡ reads_touch v ws t page self.new) }
        ensures below { IfSome result (λ page. page < pages_of space.now) }
        ensures taken { IfSome result (λ _. self.new.taken ≡ self.old.taken + 1) }
        ensures shorter { IfSome result (λ _. length self.new.rest.now < length self.old.rest.now) }
        ensures same { IfNone result ((g : grammar) (place : Place g) →
            reads_left g place self.new ≡ reads_left g place self.old) }
        ensures none_taken { IfNone result (self.new.taken ≡ self.old.taken) }
        ensures as_long { IfNone result (length self.new.rest.now ≡ length self.old.rest.now) }
        ensures small { IsShort self.new }
    {
        let (page, rest) = leading_touch(space, self.rest)?;
        self.rest = rest;
        self.taken += 1;
        Some(page)
    }

    // Turns the rejection of the line that was taken last into the fault of the text.
    pub fn refuse<T>(&self, said: Result<T, ScriptKind>) -> Result<T, ScriptFault>
        ensures { result ≡ at self.now.taken said }
    {
        match said {
            Ok(value) => Ok(value),
            Err(kind) => Err(ScriptFault {
                line: self.taken,
                kind,
            }),
        }
    }

    // Whether there is a next line, and this is its first word.
    #[tactic(auto, using(crate::proofs::PartLemmas::begins_lines_parts))]
    pub fn next_is(&self, word: &[u8]) -> bool
        ensures { result ≡ first_begins word.now self.now.rest.now }
    {
        match split_line(self.rest) {
            (line, Some(_)) => same_word(first_word(line), word),
            (_, None) => false,
        }
    }

    // Checks that nothing is left.
    #[tactic(auto, using(crate::proofs::PartLemmas::reads_after))]
    pub fn end(&self) -> Result<(), ScriptFault>
        requires { IsShort self.now }
        ensures ok { OnOk result ((g : grammar) (s : Said g) → reads_left g (AtEnd s) self.now ≡ Ok s) }
        ensures fault { IfErr result (λ fault. (g : grammar) (s : Said g) →
            reads_left g (AtEnd s) self.now ≡ Err fault) }
    {
        if self.rest.is_empty() {
            Ok(())
        } else {
            Err(ScriptFault {
                line: self.taken + 1,
                kind: ScriptKind::After,
            })
        }
    }
}
