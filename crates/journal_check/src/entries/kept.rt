// What is kept of a journal text, so that its entries can be carried out again.
ghost use Rattle.std.specs.Prelude.{◌≡◌, ◌<◌, ◌-◌, ◌^◌, [], ◌∷◌, OnOk, Some};
ghost use Rattle.damon_control.specs.JournalHead.{head_said};
ghost use Rattle.damon_control.specs.LiveView.{call_value};
ghost use Rattle.journal_check.specs.Kept.{GainsEntry, IsKept};
ghost use Rattle.journal_text.specs.Place.{uncalled};
ghost use Rattle.run_journal.specs.Room.{nothing_said};

use damon_control::{Call, JournalHead};
use live_commit::Setup;
use run_journal::BitList;
use std::alloc::{AllocError, Global};

// Whether results and calls are kept.
#[derive(Clone, Copy)]
pub(crate) enum Keeping {
    Nothing,
    Everything,
}

// A call, with the index of its entry.
#[derive(Drop)]
pub(crate) struct KeptCall {
    pub place: u32,
    pub call: Call,
}

// The seed and the setup of a text, the number of its entries, and what no state tells of these: the
// results of all checks, and the calls. All else follows from the states.
#[derive(Drop)]
pub(crate) struct Kept {
    pub keeping: Keeping,
    pub seed: u64,
    pub setup: Setup,
    pub entries: u32,
    pub bits: BitList,
    pub calls: Vec<KeptCall>,
}

impl Kept {
    // Before the first entry. Takes no memory.
    pub fn new(alloc: Global, head: JournalHead, keeping: Keeping) -> Kept
        ensures kept { IsKept (uncalled (head_said head)) nothing_said result }
        ensures keeping { result.keeping ≡ keeping }
        ensures entries { result.entries ≡ 0 }
    {
        let JournalHead { seed, setup } = head;
        Kept {
            keeping,
            seed,
            setup,
            entries: 0,
            bits: BitList::new(alloc),
            calls: Vec::new(alloc),
        }
    }

    // One entry more, which has no results and is no call. Takes no memory.
    pub fn add_other(&mut self)
        requires { self.old.entries < 2 ^ 32 - 1 }
        ensures { GainsEntry self.old self.new [] [] }
    {
        self.entries += 1;
    }

    // One check more, with its results.
    pub fn add_check(&mut self, bits: &[bool]) -> Result<(), AllocError>
        requires { self.old.entries < 2 ^ 32 - 1 }
        ensures { OnOk result (GainsEntry self.old self.new bits.now []) }
    {
        match self.keeping {
            Keeping::Nothing => {}
            Keeping::Everything => self.bits.extend(bits)?,
        }
        self.entries += 1;
        Ok(())
    }

    // One call more.
    pub fn add_call(&mut self, call: Call) -> Result<(), AllocError>
        requires { self.old.entries < 2 ^ 32 - 1 }
        ensures { OnOk result (GainsEntry self.old self.new []
            ((self.old.entries, Some (call_value call)) ∷ [])) }
    {
        match self.keeping {
            Keeping::Nothing => {}
            Keeping::Everything => {
                self.calls.reserve(1)?;
                self.calls.push_reserved(KeptCall {
                    place: self.entries,
                    call,
                });
            }
        }
        self.entries += 1;
        Ok(())
    }
}
