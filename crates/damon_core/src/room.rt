ghost use Rattle.std.specs.Prelude.{◌≡◌, ℕ, ◌*◌, ◌≤◌, ◌<◌, List, Ok, Some, IfOk, option_map};
ghost use Rattle.std.specs.List.{AllByRecursion};
ghost use Rattle.damon_types.specs.Within.{AreWithin};
ghost use Rattle.damon_core.specs.Commit.{regions_after};
ghost use Rattle.damon_core.specs.Kept.{CanCommit};

use damon_types::{RangeSpecs, Ranges, Space};
use range_update::update;
use region_list::{Regions, RowBuf};
use std::alloc::{AllocError, Global};
use std::marker::Model;
use target_ranges::fill_checked;

/// Room for the new ranges of a commit and for their rows, taken once, so that no commit takes memory. It
/// is seen as the number of ranges for which there is room.
#[derive(Drop)]
pub(crate) struct Room {
    ranges: Ranges,
    // The pieces of the new ranges, before they are shrunk.
    pieces: RowBuf,
}

impl Model for Room {
    ghost use Rattle.std.specs.Prelude.{ℕ, ◌*◌, ◌≤◌};

    ghost Value = { ℕ };

    ghost view = { λ r. r.ranges.cap };

    ghost invariant = { λ r. 3 * r.ranges.cap ≤ r.pieces.cap };
}

impl Room {
    // Room for regions of at most `cap` rows, or an error when out of memory.
    pub(crate) fn new(alloc: Global, cap: u32) -> Result<Room, AllocError>
        requires { cap ≤ 4096 }
        ensures { IfOk result (λ r. r ≡ cap) }
    {
        let ranges = Ranges::new(alloc, cap)?;
        let pieces = RowBuf::new(alloc, 3 * cap)?;
        Ok(Room { ranges, pieces })
    }

    // Gives the regions new ranges, if there are any, and another maximum. Otherwise the rows are shrunk.
    pub(crate) fn change(
        &mut self,
        regions: &mut Regions,
        space: &Space,
        specs: &Option<RangeSpecs>,
        max: u32,
    )
        requires room { self.old ≡ regions.old.cap }
        requires can { CanCommit space.now regions.old (option_map (λ l. l.list) specs.now) max }
        ensures changed { regions.new
            ≡ regions_after space.now (option_map (λ l. l.list) specs.now) max regions.old }
        ensures within { AreWithin space.now regions.old.ranges → AreWithin space.now regions.new.ranges }
        ensures room { self.new ≡ self.old }
    {
        let Some(specs) = specs else {
            regions.shrink_to(max);
            return;
        };
        fill_checked(&mut self.ranges, space, specs.as_slice());
        update(regions, &self.ranges, max, &mut self.pieces);
    }
}
