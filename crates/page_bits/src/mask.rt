ghost use Rattle.std.specs.Prelude.{◌≡◌, ◌≤◌, ◌<◌, ◌&&◌, ℕ, nat_le, nat_lt};
ghost use Rattle.page_bits.specs.Bits.{is_set};

use crate::WORD;

/// The word with ones from bit `from`, which is below 64, to before bit `to`, which is from 1 to 64, and with
/// zeros elsewhere.
#[inline(always)]
pub fn ones_between(from: u32, to: u32) -> u64
    requires from { from < 64 }
    requires some { 1 ≤ to }
    requires to { to ≤ 64 }
    ensures { (i : ℕ) → i < 64 → is_set result i ≡ (nat_le from i && nat_lt i to) }
{
    u64::MAX << from & u64::MAX >> (WORD - to)
}
