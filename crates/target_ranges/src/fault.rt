/// Why a range is rejected: the first reason, in the order of the variants.
#[derive(Clone, Copy, Debug, PartialEq, Eq)]
pub enum RangeWhy {
    /// `cap` ranges come before it.
    TooMany,
    /// There is no target with this index.
    NoSuchTarget,
    /// One of its addresses is no multiple of [`PAGE_SIZE`](damon_types::PAGE_SIZE).
    Unaligned,
    /// Its end is not above its first address.
    Reversed,
    /// It begins below its target, or ends above it.
    OutsideSpan,
    /// It has fewer than `unit` pages.
    TooSmall,
    /// Its class is above [`MAX_CLASS`](damon_types::MAX_CLASS).
    BadClass,
    /// It is in an earlier target than the range before it, or in the same target and begins before
    /// the end of that range.
    Overlap,
}

/// The first range of a list that is rejected.
#[derive(Clone, Copy, Debug, PartialEq, Eq)]
pub struct RangeFault {
    /// The index of the range in the list.
    pub index: u32,
    /// The first reason.
    pub why: RangeWhy,
}
