ghost use Rattle.std.specs.Prelude.{◌≡◌, ◌≤◌, [], length, IfOk};
ghost use Rattle.std.specs.List.{AllByRecursion};
ghost use Rattle.damon_types.specs.Within.{AreWithin};
ghost use Rattle.scheme_engine.specs.Engine.{BeginBy, FitsSlot};
ghost use Rattle.scheme_engine.specs.Served.{slots_served};

use damon_types::Space;
use region_list::{Regions, RowBuf};
use scheme_engine::{Applied, Engine};
use std::alloc::{AllocError, Global};

/// What the last aggregation reported: when it was, its threshold, the rows as they stood once they were
/// merged and the schemes were applied, with the counts of the passes since the aggregation before, and
/// what the schemes were applied to. Empty, with tick 0, before the first aggregation.
#[derive(Drop)]
pub struct Report {
    /// The passes that had ended, which is the time of the aggregation.
    pub tick: u64,
    /// The most by which two counts differed that were about the same: a tenth of the highest count.
    pub threshold: u32,
    /// The rows in order.
    pub rows: RowBuf,
    /// The runs of pages that schemes were applied to, and the choices of the slots that were set.
    pub applied: Applied,
}

impl Report {
    // The report before the first aggregation, with room for `cap` rows, or an error when out of memory.
    pub(crate) fn new(alloc: Global, cap: u32) -> Result<Box<Report>, AllocError>
        ensures { IfOk result (λ r. r.value ≡ record {
          tick = 0;
          threshold = 0;
          rows = record { rows = []; cap = cap };
          applied = record { runs = []; choices = []; cap = cap };
        }) }
    {
        let rows = RowBuf::new(alloc, cap)?;
        let applied = Applied::new(alloc, cap)?;
        let report = Report {
            tick: 0,
            threshold: 0,
            rows,
            applied,
        };
        Ok(Box::new(alloc, report)?)
    }

    // Serves the slots of an engine over the rows of these regions, and keeps what they were applied to.
    pub(crate) fn serve(
        &mut self,
        engine: &mut Engine,
        regions: &mut Regions,
        space: &Space,
        aggr: u32,
        tick: u64,
    )
        requires within { AreWithin space.now regions.old.ranges }
        requires aggr { 1 ≤ aggr }
        requires engine { regions.old.cap ≡ engine.old.cap }
        requires room { regions.old.cap ≡ self.old.applied.cap }
        requires windows { BeginBy tick engine.old.slots }
        requires fits { AllByRecursion FitsSlot
            (slots_served 0 space.now aggr tick regions.old engine.old.slots).slots }
        ensures slots { engine.new ≡ record engine.old {
          slots = (slots_served 0 space.now aggr tick regions.old engine.old.slots).slots;
        } }
        ensures rows { regions.new ≡ record regions.old {
          rows = (slots_served 0 space.now aggr tick regions.old engine.old.slots).rows;
        } }
        ensures applied { self.new ≡ record self.old {
          applied = record self.old.applied {
            runs = (slots_served 0 space.now aggr tick regions.old engine.old.slots).runs;
            choices = (slots_served 0 space.now aggr tick regions.old engine.old.slots).choices;
          };
        } }
    {
        engine.run(regions, space, aggr, tick, &mut self.applied);
    }

    // Replaces the tick, the threshold and the rows, for which there is room.
    pub(crate) fn set(&mut self, tick: u64, threshold: u32, rows: &RowBuf)
        requires { length rows.now.rows ≤ self.old.rows.cap }
        ensures { self.new ≡ record self.old {
          tick = tick;
          threshold = threshold;
          rows = record self.old.rows { rows = rows.now.rows };
        } }
    {
        self.tick = tick;
        self.threshold = threshold;
        self.rows.copy_from(rows);
    }
}
