ghost use Rattle.std.specs.Prelude.{◌≡◌, ◌↔◌, [], ◌∷◌, ◌++◌, length, None, IfSome, OnOk, OnErr, IsPermutation};
ghost use Rattle.heat_report.specs.Sizes.{IsSpread, spread_of};

use std::alloc::{AllocError, Global};
use std::marker::Model;

/// The least, the median and the greatest of some sizes in pages.
#[derive(Clone, Copy, Debug, PartialEq, Eq)]
pub struct Spread {
    /// The least size.
    pub least: u64,
    /// The least size for which at least half of the sizes are at most that size.
    pub median: u64,
    /// The greatest size.
    pub greatest: u64,
}

/// A list of sizes in pages.
#[derive(Debug, Drop)]
pub struct Sizes {
    items: Vec<u64>,
}

impl Model for Sizes {
    ghost use Rattle.std.specs.Prelude.{ℕ, List};

    ghost Value = { List ℕ };

    ghost view = { λ s. s.items.items };
}

impl Sizes {
    /// The empty list. Takes no memory.
    pub fn new(alloc: Global) -> Sizes
        ensures { result ≡ [] }
    {
        Sizes {
            items: Vec::new(alloc),
        }
    }

    /// The number of sizes.
    pub fn len(&self) -> usize
        ensures { result ≡ length self.now }
    {
        self.items.len()
    }

    /// Appends a size. Takes memory; on an error the list is unchanged.
    pub fn push(&mut self, pages: u64) -> Result<(), AllocError>
        ensures ok { OnOk result (self.new ≡ self.old ++ pages ∷ []) }
        ensures err { OnErr result (self.new ≡ self.old) }
    {
        self.items.push(pages)?;
        Ok(())
    }

    /// The least, the median and the greatest size; `None` exactly where there is no size. The sizes
    /// are put into another order. Takes no memory.
    pub fn spread(&mut self) -> Option<Spread>
        ensures exact { result ≡ spread_of self.old }
        ensures spread { IfSome result (IsSpread self.old) }
        ensures none { (result ≡ None) ↔ (self.old ≡ []) }
        ensures same { IsPermutation self.old self.new }
    {
        self.items.sort_unstable();
        let least = *self.items.first()?;
        let last = self.items.len() - 1;
        Some(Spread {
            least,
            median: self.items[last / 2],
            greatest: self.items[last],
        })
    }
}
