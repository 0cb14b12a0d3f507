ghost use Rattle.std.specs.Prelude.{◌≡◌, ◌<◌, ◌≤◌, IfSome, length};
ghost use Rattle.damon_types.specs.Actions.{action_name};
ghost use Rattle.damon_types.specs.Scheme.{is_filter, bad_filter, filter_fault, checked_marks, checked_pattern, checked_in, checked_quota, checked_scheme, checked_time};

use crate::{Filter, FilterKind, Filters, MAX_CLASS, PAGE_SIZE};

/// The number of the last slot for a scheme.
pub const MAX_SLOT: u8 = 15;

/// What a scheme does to pages. The names are those of the kernel.
#[derive(Clone, Copy, Debug, PartialEq, Eq)]
pub enum Action {
    /// Nothing: the pages are only counted.
    Stat,
    /// The pages will be needed soon.
    Willneed,
    /// The pages will not be needed soon.
    Cold,
    /// Page the pages out.
    Pageout,
    /// Back the pages by huge pages.
    Hugepage,
    /// Do not back the pages by huge pages.
    Nohugepage,
    /// Move the pages to the head of the LRU list.
    LruPrio,
    /// Move the pages to the tail of the LRU list.
    LruDeprio,
}

impl Action {
    /// The name of the action, in scripts and reports: a word of at most 10 bytes.
    #[inline]
    pub fn name(self) -> &'static str
        ensures named { result.now ≡ action_name self }
        ensures short { length result.now ≤ 10 }
    {
        match self {
            Self::Stat => "stat",
            Self::Willneed => "willneed",
            Self::Cold => "cold",
            Self::Pageout => "pageout",
            Self::Hugepage => "hugepage",
            Self::Nohugepage => "nohugepage",
            Self::LruPrio => "lru_prio",
            Self::LruDeprio => "lru_deprio",
        }
    }
}

/// The numbers from `low` to `high`, both included.
#[derive(Clone, Copy, Debug, PartialEq, Eq)]
pub struct Span {
    pub low: u32,
    pub high: u32,
}

/// The regions that a scheme is for: those whose size in pages, access count, and age in
/// aggregations each lie in their span.
#[derive(Clone, Copy, Debug, PartialEq, Eq)]
pub struct Pattern {
    pub size: Span,
    pub count: Span,
    pub age: Span,
}

/// A limit on how much a scheme is applied to.
#[derive(Clone, Copy, Debug, PartialEq, Eq)]
pub struct Quota {
    /// The most bytes in each reset interval, rounded down to whole pages.
    pub bytes: u64,
    /// The reset interval in ticks, at least 1.
    pub reset: u32,
    /// The most nanoseconds in each reset interval, by the costs measured so far; `None` for no such
    /// limit.
    pub time: Option<u64>,
}

/// The weights of a region's size, access count and age in its priority.
#[derive(Clone, Copy, Debug, PartialEq, Eq)]
pub struct Weights {
    pub size: u16,
    pub count: u16,
    pub age: u16,
}

/// Which regions a scheme is applied to first.
#[derive(Clone, Copy, Debug, PartialEq, Eq)]
pub enum Prefer {
    /// Those with many accesses.
    Hot,
    /// Those with few accesses.
    Cold,
}

/// Watermarks: the values of a metric at which a scheme becomes active and inactive.
#[derive(Clone, Copy, Debug, PartialEq, Eq)]
pub struct Marks {
    /// Above this value the scheme becomes inactive.
    pub high: u32,
    /// Below this value, down to `low`, the scheme becomes active.
    pub mid: u32,
    /// Below this value the scheme becomes inactive.
    pub low: u32,
}

/// An action, and what it is applied to: the regions of a pattern, in the order of their priority,
/// the pages that pass the filters, within a quota.
#[derive(Clone, Copy, Debug, PartialEq, Eq)]
pub struct Scheme {
    pub action: Action,
    pub pattern: Pattern,
    /// `None` for no limit.
    pub quota: Option<Quota>,
    pub weights: Weights,
    pub prefer: Prefer,
    /// `None` for a scheme that is always active.
    pub marks: Option<Marks>,
    pub filters: Filters,
}

/// The change of one of the slots that hold schemes.
#[derive(Clone, Copy, Debug, PartialEq, Eq)]
pub struct SlotChange {
    /// The number of the slot, at most [`MAX_SLOT`].
    pub slot: u8,
    /// The new scheme of the slot; `None` empties it.
    pub scheme: Option<Scheme>,
}

/// The version of the rules that a monitor keeps.
#[derive(Clone, Copy, Debug, PartialEq, Eq)]
pub enum Version {
    /// No time quotas and no costs.
    One,
    /// Time quotas, costs, and ages that begin anew where a row comes into use or falls out of it.
    Two,
}

/// A cost that was measured.
#[derive(Clone, Copy, Debug, PartialEq, Eq)]
pub struct CostPart {
    /// The number of the slot, at most [`MAX_SLOT`].
    pub slot: u8,
    /// The nanoseconds.
    pub nanos: u64,
}

/// The first limit that a scheme for a slot breaks, in the order of the variants.
#[derive(Clone, Copy, Debug, PartialEq, Eq)]
pub enum SchemeFault {
    /// The number of the slot is above [`MAX_SLOT`].
    SlotOutOfRange { slot: u8 },
    /// A span of the pattern has its ends reversed: the first of size (0), count (1) and age (2).
    PatternReversed { part: u8 },
    /// The quota's reset interval is 0.
    ZeroReset,
    /// The watermarks are not in the order high ≥ mid ≥ low.
    MarksOutOfOrder,
    /// The filter with this index is the first with an address that is no multiple of
    /// [`PAGE_SIZE`], with `from` not below `to`, or with a class above [`MAX_CLASS`].
    BadFilter { index: u32 },
    /// The quota has a time, and the version has none. Only [`Scheme::check_in`] says so.
    TimeInOne,
}

impl Scheme {
    /// Checks the limits of the scheme and of the number of its slot, in the order of
    /// [`SchemeFault`], which is this project's own.
    pub fn check(&self, slot: u8) -> Result<(), SchemeFault>
        ensures exact { result ≡ checked_scheme slot self.now }
    {
        if slot > MAX_SLOT {
            return Err(SchemeFault::SlotOutOfRange { slot });
        }
        self.pattern.check()?;
        check_quota(self.quota)?;
        check_marks(self.marks)?;
        check_filters(&self.filters)
    }

    /// Checks the limits of the scheme and of the number of its slot, and then that a version without
    /// time quotas has none.
    pub fn check_in(&self, version: Version, slot: u8) -> Result<(), SchemeFault>
        ensures exact { result ≡ checked_in version slot self.now }
    {
        self.check(slot)?;
        check_time(version, self.quota)
    }
}

impl Pattern {
    // The first part whose ends are reversed.
    fn check(&self) -> Result<(), SchemeFault>
        ensures { result ≡ checked_pattern self.now }
    {
        let Pattern { size, count, age } = *self;
        let part = if size.low > size.high {
            0
        } else if count.low > count.high {
            1
        } else if age.low > age.high {
            2
        } else {
            return Ok(());
        };
        Err(SchemeFault::PatternReversed { part })
    }
}

fn check_quota(quota: Option<Quota>) -> Result<(), SchemeFault>
    ensures { result ≡ checked_quota quota }
{
    match quota {
        Some(Quota { reset: 0, .. }) => Err(SchemeFault::ZeroReset),
        _ => Ok(()),
    }
}

fn check_time(version: Version, quota: Option<Quota>) -> Result<(), SchemeFault>
    ensures { result ≡ checked_time version quota }
{
    match (version, quota) {
        (Version::One, Some(Quota { time: Some(_), .. })) => Err(SchemeFault::TimeInOne),
        _ => Ok(()),
    }
}

fn check_marks(marks: Option<Marks>) -> Result<(), SchemeFault>
    ensures { result ≡ checked_marks marks }
{
    match marks {
        Some(Marks { high, mid, low }) if high < mid || mid < low => {
            Err(SchemeFault::MarksOutOfOrder)
        }
        _ => Ok(()),
    }
}

// Fails at the first filter that breaks a limit.
fn check_filters(filters: &Filters) -> Result<(), SchemeFault>
    ensures { result ≡ filter_fault (bad_filter filters.now) }
{
    match bad_filter(filters.as_slice()) {
        Some(index) => Err(SchemeFault::BadFilter {
            index: index as u32,
        }),
        None => Ok(()),
    }
}

// The index of the first filter that breaks a limit.
fn bad_filter(filters: &[Filter]) -> Option<usize>
    ensures exact { result ≡ bad_filter filters.now }
    ensures within { IfSome result (λ i. i < length filters.now) }
{
    filters.iter().position(|filter| !is_sound(filter.kind))
}

// Whether the addresses are multiples of the page size and in order, or the class is in its limit.
fn is_sound(kind: FilterKind) -> bool
    ensures { result ≡ is_filter kind }
{
    match kind {
        FilterKind::Addr { from, to } => {
            from % PAGE_SIZE == 0 && to % PAGE_SIZE == 0 && from < to
        }
        FilterKind::Target { .. } => true,
        FilterKind::Class { class } => class <= MAX_CLASS,
    }
}
