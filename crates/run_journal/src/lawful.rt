use std::alloc::AllocError;

/// What is counted of a journal that is lawful.
#[derive(Clone, Copy, Debug, PartialEq, Eq)]
pub struct Lawful {
    /// The passes that were prepared.
    pub passes: u64,
    /// The loads of all passes: the results that the journal has.
    pub loads: u64,
    /// The results that are hits.
    pub hits: u64,
}

/// Why a text was not verified.
#[derive(Clone, Copy, Debug, PartialEq, Eq)]
pub enum VerifyFault {
    /// The text is not that of a lawful journal: its first rejected line, counted from 1.
    Unlawful { line: u64 },
    /// Memory ran out.
    Memory,
}

impl From<AllocError> for VerifyFault {
    ghost use Rattle.std.specs.Prelude.{◌≡◌};
    ghost use Rattle.run_journal.specs.declared.lawful.VerifyFault.TheVariants.{Memory};

    ghost from_gives = { λ _ fault. fault ≡ Memory };

    fn from(_error: AllocError) -> VerifyFault {
        VerifyFault::Memory
    }
}
