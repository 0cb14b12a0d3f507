// The rule that the table keeps, and what each step tells its seat.
ghost use Rattle.std.specs.Prelude.{◌≡◌, ℕ, []};
ghost use Rattle.page_words.specs.declared.view.Entry.TheVariants.{Clear, Load};
ghost use Rattle.page_words.specs.declared.view.View.TheVariants.{Toucher, Monitor, Spent};
ghost use Rattle.page_words.specs.Clears.{pass_of};
ghost use Rattle.page_words.specs.Rule.{WordRule};
ghost use Rattle.page_words.specs.Steps.{after_touch, with_entry, after_split, after_gather, Finds};
ghost use Rattle.page_words.specs.Views.{TagsRiseIn};

use crate::view::View;
use atomic_table::{Join, Play, Split, TableRule};
use std::marker::{Brand, PhantomData};

// The key is the number of pages.
pub(crate) struct PageWordRule;

impl<S> TableRule<S, View, u32> for PageWordRule {
    ghost holds = { WordRule };

    ghost first = { λ _. Monitor [] 0 };
}

// A touch is told the pass that the word named, and that its tags of one page do not fall.
pub(crate) struct Touches;

impl<S> Play<S, View> for Touches {
    ghost then = { λ s me found after.
        (after ≡ (after_touch me.0 s.word (pass_of found), me.1)) × TagsRiseIn after.0 };
}

// A clear stores the word that names its pass, and is told what it found.
pub(crate) struct Clears;

impl<S> Play<S, View> for Clears {
    ghost then = { λ s me found after.
        (after ≡ (with_entry me.0 (Clear s.word (pass_of s.first)), me.1)) × Finds me.0 s.word found };
}

// A load is told the word.
pub(crate) struct Loads;

impl<S> Play<S, View> for Loads {
    ghost then = { λ s me found after.
        (after ≡ (with_entry me.0 (Load s.word found), me.1)) × Finds me.0 s.word found };
}

// A split has no operand for the worker's number, so a type carries it, for the proof alone.
pub(crate) trait Numbered {
    ghost number: { ℕ };
}

// A call names `Brand`, and its proof picks the number.
impl Numbered for Brand {
    ghost number = { 0 };
}

// The monitor's view counts one touch seat more, and the new seat has touched nothing.
pub(crate) struct Splits<W: Numbered> {
    of: PhantomData<W>,
}

impl<W: Numbered> Split<View> for Splits<W> {
    ghost left = { after_split };

    ghost right = { λ _. Toucher W.number [] };
}

// The monitor's view takes in the touches, and the other seat's view is spent.
pub(crate) struct Gathers;

impl Join<View> for Gathers {
    ghost both = { after_gather };

    ghost spent = { Spent };
}
