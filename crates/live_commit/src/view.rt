use crate::Phase;
use damon_types::Version;

/// What a commit is checked against beside the space: the phase of a monitor, and its numbers.
#[derive(Clone, Copy, Debug, PartialEq, Eq)]
pub struct View {
    /// The version of the rules.
    pub version: Version,
    /// The phase.
    pub phase: Phase,
    /// The number of rows.
    pub rows: u32,
    /// The number of ranges that are watched.
    pub ranges: u32,
    /// The least size of a region in pages.
    pub unit: u32,
    /// The most regions that are ever allowed.
    pub cap: u32,
    /// The most regions that are allowed now.
    pub max: u32,
}
