ghost use Rattle.std.specs.Prelude.{◌≡◌, OnOk};
ghost use Rattle.damon_types.specs.Attrs.{IsAttrs, checked_attrs};

/// The least that [`Attrs::min`] may be, in regions.
pub const MIN_REGIONS: u32 = 3;

/// The most that [`Attrs::aggr`] may be, in passes.
pub const MAX_AGGR: u32 = 1_000;

/// The attributes of a monitor: how many regions it keeps, and how often it aggregates.
#[derive(Clone, Copy, Debug, PartialEq, Eq)]
pub struct Attrs {
    /// The number of regions that the initial division aims at, at least [`MIN_REGIONS`].
    pub min: u32,
    /// The most regions, at least `min`.
    pub max: u32,
    /// The sampling passes from one aggregation to the next, from 1 to [`MAX_AGGR`].
    pub aggr: u32,
}

/// The first limit that attributes break, in the order of the variants.
#[derive(Clone, Copy, Debug, PartialEq, Eq)]
pub enum AttrsFault {
    /// `min` is below 3.
    MinTooSmall { min: u32 },
    /// `min` is above `max`.
    MinOverMax { min: u32, max: u32 },
    /// `aggr` is 0 or above 1,000.
    AggrOutOfRange { aggr: u32 },
}

impl Attrs {
    /// Checks the limits of the attributes, in the order of [`AttrsFault`].
    pub fn check(&self) -> Result<(), AttrsFault>
        ensures exact { result ≡ checked_attrs self.now }
        ensures within { OnOk result (IsAttrs self.now) }
    {
        let Attrs { min, max, aggr } = *self;
        if min < MIN_REGIONS {
            return Err(AttrsFault::MinTooSmall { min });
        }
        if min > max {
            return Err(AttrsFault::MinOverMax { min, max });
        }
        if aggr < 1 || aggr > MAX_AGGR {
            return Err(AttrsFault::AggrOutOfRange { aggr });
        }
        Ok(())
    }
}
