// The words after the sharing has ended.
use atomic_table::Closed;
use std::alloc::Global;
use std::marker::Model;

/// The words after the sharing has ended. In contracts it is a list, one word a page.
pub struct Settled {
    pub(crate) closed: Closed<u8, Global>,
}

impl Model for Settled {
    ghost use Rattle.std.specs.Prelude.{◌≡◌, ℕ, List};
    ghost use Rattle.std.specs.Mem.Slots.{slots_items, slots_len, IsFull};

    ghost Value = { List ℕ };

    ghost view = { λ s. slots_items s.closed.words };

    ghost invariant = { λ s. IsFull s.closed.words × (slots_len s.closed.slots ≡ 0) };
}

impl Settled {
    ghost use Rattle.std.specs.Prelude.{◌≡◌, ◌<◌, length, slice_index};

    /// The word of a page of the table.
    #[tactic(auto, using(crate::proofs::Lists::index_of_found))]
    pub fn word(&self, page: u32) -> u64
        requires { page < length self.now }
        ensures { result ≡ slice_index self.now page }
    {
        self.closed.word(page as usize)
    }
}

impl Drop for Settled {
    fn drop(self) {
        let Settled { closed } = self;
        closed.free();
    }
}
