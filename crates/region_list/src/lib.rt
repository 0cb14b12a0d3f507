//! The rows of a monitor (its regions): lists of rows, the initial division of ranges, rows that tile
//! their ranges, shrinking, comparing where rows lie, and finding the row that holds a page.
#![tactic(auto)]

/// The initial division of ranges.
mod division;
/// Finding the row that holds a page.
mod find;
/// Joining two rows.
mod join;
/// Laws of tiling, division, joining, cutting, shrinking and comparing.
mod laws;
/// Joining the pairs of one level, for shrinking.
mod level;
/// Passes that replace all rows, or the values of all rows.
mod pass;
/// Rows that tile their ranges.
mod regions;
/// A list of rows with a fixed capacity.
mod row_buf;
/// Comparing where rows lie.
mod same;
/// Shrinking a list of rows.
mod shrink;

pub use division::divide;
pub use join::join_rows;
pub use laws::{shrunk_rows_tile, tiled_rows_fit, tiling_is_per_page};
pub use pass::{RowPass, ValuePass};
pub use regions::Regions;
pub use row_buf::RowBuf;
pub use same::same_spans;
pub use shrink::shrink_rows;
