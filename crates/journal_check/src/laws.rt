// A law of the definitions. The function does nothing.
ghost use Rattle.std.specs.Prelude.{List, ℕ, ◌≡◌, Err};
ghost use Rattle.journal_text.specs.Reading.{read_journal};
ghost use Rattle.journal_check.specs.Verified.{IsOfNoLawfulRun};

use journal_text::lawful_journals_are_read;

/// A text with a rejected line is that of no lawful journal that a text can spell.
pub fn rejected_texts_are_unlawful()
    ensures { (text : List ℕ) (line : ℕ) → read_journal text ≡ Err line → IsOfNoLawfulRun text }
{
    lawful_journals_are_read();
}
