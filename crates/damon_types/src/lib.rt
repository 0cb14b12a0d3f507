//! The types that all layers share: spaces, ranges, rows, attributes, schemes, and byte streams.
#![tactic(auto)]

/// The attributes of a monitor, and their limits.
mod attrs;
/// How often a stream was called, and how often it failed.
mod calls;
/// Streams over memory that fail at stated calls.
mod faulty;
/// Filters of pages, and lists of them.
mod filter;
/// How the pages of a space are numbered.
mod laws;
/// Lists that grow.
mod list;
/// Streams over memory.
mod memory;
/// Ranges as the user gives them, and as they are watched.
mod range;
/// Appending to a vector that has the capacity.
mod reserved;
/// Regions.
mod row;
/// Schemes, and their limits.
mod scheme;
/// Targets, their pages and addresses.
mod space;
/// Streams over readers and writers of std.
mod standard;
/// Inputs and outputs of bytes.
mod stream;

pub use attrs::{Attrs, AttrsFault, MAX_AGGR, MIN_REGIONS};
pub use calls::Calls;
pub use faulty::{FaultSink, FaultSource};
pub use filter::{Filter, FilterKind, Filters, Full, MAX_FILTERS};
pub use laws::{pages_are_numbered, pages_rise};
pub use list::{PlainList, RangeSpecs, SlotChanges};
pub use memory::{MemSink, MemSource};
pub use range::{MAX_CLASS, Range, RangeSpec, Ranges};
pub use reserved::append_reserved;
pub use row::Row;
pub use scheme::{
    Action, CostPart, MAX_SLOT, Marks, Pattern, Prefer, Quota, Scheme, SchemeFault, SlotChange,
    Span, Version, Weights,
};
pub use space::{ADDRESS_END, MAX_PAGES, MAX_TARGETS, PAGE_SIZE, Place, Space, SpaceFault, Target};
pub use standard::{StdSink, StdSource};
pub use stream::{Failed, Sink, Source};
