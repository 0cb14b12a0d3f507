use damon_types::{Attrs, CostPart, RangeSpecs, SlotChange};

/// Changes of a running monitor. They take effect in the order of the fields; `None` changes
/// nothing.
#[derive(Debug, Drop)]
pub struct Commit {
    /// The new attributes.
    pub attrs: Option<Attrs>,
    /// The new ranges, in place of all that are watched.
    pub ranges: Option<RangeSpecs>,
    /// One slot, which gets a scheme or is emptied.
    pub slot: Option<SlotChange>,
    /// The new value of the metric that watermarks are compared with.
    pub metric: Option<u32>,
    /// A cost that was measured for a slot.
    pub cost: Option<CostPart>,
}
