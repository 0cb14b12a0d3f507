// Laws of the definitions. No function here does anything.
ghost use Rattle.journal_text.specs.Rules.{ReadsLawfulBack, ReadsOnlyLawful};

use damon_core::reached_states_are_bound;
use damon_types::pages_are_numbered;

/// Each text that is read as a journal, of at most as many bytes as a text may have, is the text of a lawful
/// one that a text can spell, which is what was read.
pub fn read_journals_are_lawful()
    ensures law { ReadsOnlyLawful }
{
    reached_states_are_bound();
}

/// The text of each lawful journal that a text can spell is read as that journal and its receipts. With
/// `read_journals_are_lawful`, the texts that are read are those of lawful journals.
pub fn lawful_journals_are_read()
    ensures law { ReadsLawfulBack }
{
    pages_are_numbered();
}
