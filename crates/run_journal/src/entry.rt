use crate::receipt_list::ReceiptList;
use damon_core::Changed;
use damon_types::PlainList;
use live_commit::CommitFault;

/// What a call of a controller answered.
#[derive(Clone, Copy)]
pub enum CallAnswer {
    /// The tick and the number of rows that a show saw.
    Shown { tick: u64, rows: u32 },
    /// A commit that was accepted: the number of rows after it, and whether the pass under way became
    /// void.
    Changed { rows: u32, void: bool },
    /// A commit that was refused, by the first check that failed.
    Refused { fault: CommitFault },
}

/// The answer of a commit.
impl From<Result<Changed, CommitFault>> for CallAnswer {
    ghost use Rattle.std.specs.Prelude.{◌≡◌};
    ghost use Rattle.run_journal.specs.Replay.{answer_of};

    ghost from_gives = { λ done answer. answer ≡ answer_of done };

    fn from(done: Result<Changed, CommitFault>) -> CallAnswer {
        match done {
            Ok(changed) => CallAnswer::Changed {
                rows: changed.rows,
                void: changed.void,
            },
            Err(fault) => CallAnswer::Refused { fault },
        }
    }
}

/// One entry of a journal. A pass has its number, from 1 on, and `at` is the number of random words that
/// were drawn before the entry.
#[derive(Clone, Copy)]
pub enum Entry {
    /// A pass is prepared, and its picks are cleared.
    Prepare {
        pass: u64,
        at: u64,
    },
    /// The picks of the pass are loaded, and it ends. The journal has a result for each.
    Check {
        pass: u64,
    },
    /// A void pass ends, without a load.
    Void {
        pass: u64,
    },
    /// An aggregation is carried out, after this many passes.
    Aggregate {
        tick: u64,
        at: u64,
    },
    /// A controller makes its call with this index.
    Call {
        controller: u32,
        index: u32,
        answer: CallAnswer,
    },
}

/// A touch that a worker made: its page, and the pass that had cleared the page last, or 0 before the
/// first.
#[derive(Clone, Copy)]
pub struct Receipt {
    pub page: u32,
    pub tag: u64,
}

/// The receipts of each worker, in the order of its touches.
pub type Receipts = PlainList<ReceiptList>;
