ghost use Rattle.std.specs.Prelude.{◌≡◌, ◌+◌, ◌<◌, ◌∷◌, length, IfErr, IfOk};
ghost use Rattle.run_journal.specs.declared.lawful.VerifyFault.TheVariants.{Unlawful};
ghost use Rattle.journal_check.specs.LinesLeft.{IsFault, IsShort, WantsLine, lines_left, said_left, said_on};
ghost use Rattle.journal_text.specs.Place.{JournalPlace};

use line_text::split_line;
use run_journal::VerifyFault;

// A journal text that is read line by line.
#[derive(Drop)]
pub(crate) struct JournalLines<'a> {
    // What is left of it.
    pub rest: &'a [u8],
    // How many lines were taken.
    pub taken: u64,
}

impl<'a> JournalLines<'a> {
    // Takes the next line, without its LF.
    #[tactic(auto, using(crate::proofs::Lefts::said_line, crate::proofs::Lefts::said_cut))]
    pub fn take_line(&mut self) -> Result<&'a [u8], VerifyFault>
        requires { IsShort self.old }
        ensures line { IfOk result (λ line. (place : JournalPlace) →
            said_left place self.old ≡ said_on place line.now self.new) }
        ensures left { IfOk result (λ line. lines_left self.old ≡ line.now ∷ lines_left self.new) }
        ensures cut { IfErr result (λ fault. (place : JournalPlace) → WantsLine place
            → IsFault fault (said_left place self.old)) }
        ensures taken { IfOk result (λ line. self.new.taken ≡ self.old.taken + 1) }
        ensures shorter { IfOk result (λ line. length self.new.rest.now < length self.old.rest.now) }
        ensures small { IsShort self.new }
    {
        let (line, rest) = split_line(self.rest);
        self.rest = rest.ok_or(VerifyFault::Unlawful {
            line: self.taken + 1,
        })?;
        self.taken += 1;
        Ok(line)
    }

    // The fault that the line that was taken last is rejected.
    pub fn refuse(&self) -> VerifyFault
        ensures { result ≡ Unlawful self.now.taken }
    {
        VerifyFault::Unlawful { line: self.taken }
    }
}
