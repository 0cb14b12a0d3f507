ghost use Rattle.std.specs.Prelude.{◌≡◌};

use damon_types::{AttrsFault, SchemeFault};
use std::alloc::AllocError;
use target_ranges::RangeWhy;
use thiserror::Error;

/// The first check of a setup that failed, in the order of the variants. The two checks of slot
/// changes are made change by change.
#[derive(Clone, Copy, Debug, PartialEq, Eq, Error)]
pub enum SetupFault {
    /// The least pages of a region are 0, or more than [`MAX_UNIT`](crate::MAX_UNIT).
    #[error("BadUnit")]
    BadUnit { unit: u32 },
    /// The most regions ever are fewer than [`MIN_CAP`](crate::MIN_CAP), or more than
    /// [`MAX_CAP`](crate::MAX_CAP).
    #[error("BadCap")]
    BadCap { cap: u32 },
    /// The attributes break one of their limits.
    #[error("BadAttrs")]
    BadAttrs { why: AttrsFault },
    /// The attributes allow more regions than `cap`.
    #[error("OverCap")]
    OverCap { max: u32, cap: u32 },
    /// There is no range.
    #[error("NoRange")]
    NoRange,
    /// The range with this index is the first that is rejected.
    #[error("BadRange")]
    BadRange { index: u32, why: RangeWhy },
    /// There are more ranges than the attributes allow regions.
    #[error("RangesOverMax")]
    RangesOverMax { ranges: u32, max: u32 },
    /// The slot change with this index has a scheme that breaks a limit.
    #[error("BadScheme")]
    BadScheme { index: u32, why: SchemeFault },
    /// The slot change with this index sets a slot that an earlier change sets.
    #[error("RepeatedSlot")]
    RepeatedSlot { index: u32 },
    /// Out of memory. No check failed.
    #[error("Memory")]
    Memory,
}

impl From<AllocError> for SetupFault {
    ghost use Rattle.live_commit.specs.declared.fault.SetupFault.TheVariants.{Memory};

    ghost from_gives = { λ _ fault. fault ≡ Memory };

    fn from(_error: AllocError) -> SetupFault {
        SetupFault::Memory
    }
}

/// The first check of a commit that failed, in the order of the variants.
#[derive(Clone, Copy, Debug, PartialEq, Eq)]
pub enum CommitFault {
    /// A pass is clearing or loading its picks; `next` is the number of clears and loads that it has
    /// made.
    Busy { next: u32 },
    /// The commit has new ranges, but there is no range among them.
    NoRange,
    /// The new range with this index is the first that is rejected.
    BadRange { index: u32, why: RangeWhy },
    /// There would be more ranges than regions are allowed.
    RangesOverMax { ranges: u32, max: u32 },
    /// The new attributes break one of their limits.
    BadAttrs { why: AttrsFault },
    /// The new attributes allow more regions than `cap`.
    OverCap { max: u32, cap: u32 },
    /// The scheme of the slot change breaks a limit, or there is no such slot.
    BadScheme { why: SchemeFault },
    /// The commit has a cost, and there is no such slot or the version has no costs.
    BadCost { slot: u8 },
}
