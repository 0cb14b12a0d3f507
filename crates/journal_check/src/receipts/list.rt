// Receipts with their workers.
ghost use Rattle.std.specs.Prelude.{◌≡◌, ℕ, ◌-◌, ◌^◌, ◌<◌, [], ◌∷◌, ◌++◌, length, slice_index_or, OnErr, OnOk};
ghost use Rattle.run_journal.specs.declared.entry.Receipt.{Receipt as receipt};

use run_journal::{Receipt, ReceiptList};
use std::alloc::{AllocError, Global};
use std::marker::Model;

// A receipt with its worker.
pub(crate) type Seen = (u8, Receipt);

// Receipts with their workers, in two lists, of which one worker takes a byte.
#[derive(Drop)]
pub(crate) struct SeenList {
    workers: Vec<u8>,
    receipts: ReceiptList,
}

impl Model for SeenList {
    ghost use Rattle.std.specs.Prelude.{ℕ, List};
    ghost use Rattle.run_journal.specs.declared.entry.Receipt.{Receipt as receipt};
    ghost use Rattle.journal_check.specs.SeenColumns.{AreColumns, zipped};

    ghost Value = { List (ℕ × receipt) };

    ghost view = { λ s. zipped s.workers.items s.receipts.list };

    ghost invariant = { λ s. AreColumns (zipped s.workers.items s.receipts.list)
        s.workers.items s.receipts.list };
}

impl SeenList {
    // No receipts. Takes no memory.
    pub fn new(alloc: Global) -> SeenList
        ensures { result ≡ [] }
    {
        SeenList {
            workers: Vec::new(alloc),
            receipts: ReceiptList::new(alloc),
        }
    }

    // Appends a receipt to fewer than 2^32 - 1. Allocates; on an error the list is as it was.
    pub fn push(&mut self, seen: Seen) -> Result<(), AllocError>
        requires { length self.old < 2 ^ 32 - 1 }
        ensures ok { OnOk result (self.new ≡ self.old ++ seen ∷ []) }
        ensures err { OnErr result (self.new ≡ self.old) }
    {
        self.workers.reserve(1)?;
        let (worker, receipt) = seen;
        self.receipts.push(receipt)?;
        self.workers.push_reserved(worker);
        Ok(())
    }

    // The number of receipts.
    pub fn len(&self) -> usize
        ensures { result ≡ length self.now }
    {
        self.workers.len()
    }

    // The receipt with this index, with its worker.
    pub fn get(&self, index: usize) -> Seen
        requires { index < length self.now }
        ensures { (d : ℕ × receipt) → result ≡ slice_index_or self.now index d }
    {
        // For its clause alone: an index fits in 32 bits.
        let _receipts = self.receipts.len();
        (self.workers[index], self.receipts.get(index as u32))
    }
}
