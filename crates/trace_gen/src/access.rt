ghost use Rattle.std.specs.Prelude.{◌≡◌, ◌<◌};
ghost use Rattle.trace_gen.specs.Gen.{access_of, zone_of};

/// Which pages the blocks of a generated script touch.
#[derive(Clone, Copy, Debug, PartialEq, Eq)]
pub enum Access {
    /// Each block sweeps the 16 pages after those of the block before it.
    Sequential,
    /// Each block touches every eighth page, and begins one page after the block before it.
    Stride,
    /// Each block sweeps the same 64 pages.
    HotSpot,
    /// Each block sweeps 64 pages, the same in each 500 blocks and the next 64 after them.
    Phases,
}

impl Access {
    // The accesses of the generated script of a number.
    pub(crate) fn of(n: u64) -> Access
        ensures { result ≡ access_of n }
    {
        match n % 4 {
            0 => Access::Sequential,
            1 => Access::Stride,
            2 => Access::HotSpot,
            _ => Access::Phases,
        }
    }
}

// The zone of 64 pages that the first blocks of a hot spot or of phases sweep.
pub(crate) fn zone_of(n: u64) -> u32
    ensures zone { result ≡ zone_of n }
    ensures small { result < 16 }
{
    (n / 4 % 16) as u32
}
