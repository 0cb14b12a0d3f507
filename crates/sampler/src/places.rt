ghost use Rattle.std.specs.Prelude.{◌≡◌};
ghost use Rattle.sampler.specs.Pick.{ArePlacesOf};

use reciprocal::Reciprocal;
use region_list::Regions;

/// The columns of rows that picks read, and a reciprocal for each row. They go into a loop by value, so that
/// it need not look up after each store where they are.
#[derive(Clone, Copy)]
pub(crate) struct Places<'a> {
    /// The first pages.
    pub(crate) starts: &'a [u32],
    /// The numbers of pages.
    pub(crate) sizes: &'a [u32],
    /// The reciprocals of the sizes at the last renewal.
    pub(crate) reciprocals: &'a [Reciprocal],
}

impl<'a> Places<'a> {
    /// The columns of these rows, with these reciprocals.
    pub(crate) fn of(regions: &'a Regions, reciprocals: &'a [Reciprocal]) -> Places<'a>
        ensures places { ArePlacesOf regions.now.rows result.starts.now result.sizes.now }
        ensures reciprocals { result.reciprocals.now ≡ reciprocals.now }
    {
        let rows = regions.rows();
        Places {
            starts: rows.starts(),
            sizes: rows.pages(),
            reciprocals,
        }
    }
}
