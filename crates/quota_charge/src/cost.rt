ghost use Rattle.std.specs.Prelude.{◌≡◌, ◌+◌, ◌<◌, ◌^◌};
ghost use Rattle.quota_charge.specs.Cost.{more_nanos};

/// What applying a scheme has taken so far: all pages that a slot's schemes were applied to, and the
/// nanoseconds that were measured for it. It is never set back.
#[derive(Clone, Copy, Debug, PartialEq, Eq)]
pub struct Cost {
    pub pages: u64,
    pub nanos: u64,
}

impl Cost {
    /// Nothing so far.
    pub fn new() -> Cost
        ensures { result ≡ record { pages = 0; nanos = 0 } }
    {
        Cost { pages: 0, nanos: 0 }
    }

    /// Adds pages. The sum fits in 64 bits.
    pub fn add_pages(&mut self, pages: u64)
        requires { self.old.pages + pages < 2 ^ 64 }
        ensures { self.new ≡ record self.old { pages = self.old.pages + pages } }
    {
        self.pages += pages;
    }

    /// Adds nanoseconds. The sum stops at 2^64 - 1.
    pub fn add_nanos(&mut self, nanos: u64)
        ensures { self.new ≡ record self.old { nanos = more_nanos self.old.nanos nanos } }
    {
        self.nanos = self.nanos.saturating_add(nanos);
    }
}
