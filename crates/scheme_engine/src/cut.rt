// Cutting the row of which some but not all passing pages are taken.
ghost use Rattle.std.specs.Prelude.{◌≡◌, ◌<◌, ◌≤◌, length, IfSome};
ghost use Rattle.std.specs.Option.{option_map_or};
ghost use Rattle.scheme_engine.specs.Applying.{IsPartOf, cut_rows, rows_cut};

use region_list::Regions;

/// A row, by its index, and after how many of its pages it is cut.
#[derive(Clone, Copy)]
pub(crate) struct Part {
    pub(crate) index: u32,
    pub(crate) pages: u32,
}

// Cuts the row of a part, if there is one.
pub(crate) fn cut_part(part: Option<Part>, regions: &mut Regions)
    requires { IfSome part (IsPartOf regions.old.rows) }
    ensures { regions.new
        ≡ record regions.old { rows = option_map_or (rows_cut regions.old) part regions.old.rows } }
{
    if let Some(part) = part {
        cut(part, regions);
    }
}

// Cuts the row where there is room for one more and both sides have the minimum size. The first side gets
// age 0.
fn cut(part: Part, regions: &mut Regions)
    requires { IsPartOf regions.old.rows part }
    ensures { regions.new ≡ record regions.old { rows = rows_cut regions.old part } }
{
    let row = regions.row(part.index);
    let unit = regions.unit();
    if regions.room() > 0 && part.pages >= unit && row.pages - part.pages >= unit {
        regions.cut(part.index, part.pages);
        regions.set_values(part.index, row.count, row.last, 0);
    }
}
