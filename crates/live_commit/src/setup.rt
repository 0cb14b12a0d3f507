ghost use Rattle.live_commit.specs.Setup.{IsSetup};

use damon_types::{Attrs, Ranges, SlotChanges, Space, Version};

/// The most pages that the least size of a region may be.
pub const MAX_UNIT: u32 = 1_048_576;

/// The least cap on the number of regions.
pub const MIN_CAP: u32 = 3;

/// The greatest cap on the number of regions.
pub const MAX_CAP: u32 = 4_096;

/// What a monitor is started with. Its type guarantees the limits of its parts.
#[derive(Debug, Drop)]
pub struct Setup {
    /// The version of the rules.
    pub version: Version,
    /// The targets whose pages can be watched.
    pub space: Space,
    /// The least size of a region in pages, from 1 to [`MAX_UNIT`].
    pub unit: u32,
    /// The most regions that are ever allowed, from [`MIN_CAP`] to [`MAX_CAP`].
    pub cap: u32,
    /// The attributes, whose `max` is at most `cap`.
    pub attrs: Attrs,
    /// The ranges that are watched, from 1 to `attrs.max`, each in its target and with at least
    /// `unit` pages.
    pub ranges: Ranges,
    /// The slots that hold a scheme, each slot at most once and each scheme within its limits.
    pub slots: SlotChanges,
    pub ghost sound: { IsSetup (record {
      version = version;
      space = space;
      unit = unit;
      cap = cap;
      attrs = attrs;
      ranges = ranges.list;
      slots = slots.list;
    }) },
}
