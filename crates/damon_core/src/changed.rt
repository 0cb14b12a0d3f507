/// What an accepted commit did.
#[derive(Clone, Copy, Debug, PartialEq, Eq)]
pub struct Changed {
    /// The number of rows after the commit.
    pub rows: u32,
    /// Whether the commit made the pass under way void: all picks were cleared, and the pages of the
    /// rows have changed since.
    pub void: bool,
}
