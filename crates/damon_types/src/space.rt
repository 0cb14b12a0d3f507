ghost use Rattle.std.specs.Prelude.{◌≡◌, ℕ, ◌+◌, ◌^◌, ◌≤◌, ◌<◌, true, length, slice_get, slice_index, IfOk};
ghost use Rattle.damon_types.specs.Space.{checked, pages_of, offset, page_of, place_of, IsSpace, ChecksTo, MadeOf};

use std::alloc::{AllocError, Global};
use std::marker::Model;
use thiserror::Error;

/// The size of a page in bytes.
pub const PAGE_SIZE: u64 = 4096;

/// The most targets of a space.
pub const MAX_TARGETS: usize = 64;

/// The most pages of a space, and of each of its targets.
pub const MAX_PAGES: u32 = 1_048_576;

/// The end of the last page that a target may have, as an address in bytes.
pub const ADDRESS_END: u64 = 1 << 63;

/// One address range that can be watched: consecutive pages.
#[derive(Clone, Copy, Debug, PartialEq, Eq)]
pub struct Target {
    /// The address of the first byte, a multiple of [`PAGE_SIZE`]. The last page ends at or below
    /// [`ADDRESS_END`].
    pub base: u64,
    /// The number of pages, from 1 to [`MAX_PAGES`].
    pub pages: u32,
}

/// The place of a page: its target, and the address of its first byte.
#[derive(Clone, Copy, Debug, PartialEq, Eq)]
pub struct Place {
    /// The index of the target.
    pub target: u32,
    /// The address of the page's first byte.
    pub addr: u64,
}

/// Why a list of targets is rejected.
#[derive(Clone, Copy, Debug, PartialEq, Eq, Error)]
pub enum SpaceFault {
    /// The list is empty.
    #[error("NoTarget")]
    NoTarget,
    /// There are more than [`MAX_TARGETS`] targets.
    #[error("TooManyTargets")]
    TooManyTargets { count: u32 },
    /// The target with this index has no page, or more than [`MAX_PAGES`].
    #[error("BadPages")]
    BadPages { index: u32 },
    /// The base of the target with this index is no multiple of [`PAGE_SIZE`], or the target ends
    /// above [`ADDRESS_END`].
    #[error("BadBase")]
    BadBase { index: u32 },
    /// The targets have more than [`MAX_PAGES`] pages in all.
    #[error("TooManyPages")]
    TooManyPages { total: u64 },
    /// Out of memory. The targets break no limit.
    #[error("Memory")]
    Memory,
}

impl From<AllocError> for SpaceFault {
    ghost use Rattle.damon_types.specs.declared.space.SpaceFault.TheVariants.{Memory};

    ghost from_gives = { λ _ fault. fault ≡ Memory };

    fn from(_error: AllocError) -> SpaceFault {
        SpaceFault::Memory
    }
}

/// The targets of a monitor, from 1 to [`MAX_TARGETS`], with at most [`MAX_PAGES`] pages in all.
/// Their pages are numbered from 0: first those of target 0 by address, then those of target 1, and
/// so on.
#[derive(Debug, Drop)]
pub struct Space {
    targets: Vec<Target>,
    offsets: Vec<u32>,
    pages: u32,
}

impl Model for Space {
    ghost use Rattle.std.specs.Prelude.{List};
    ghost use Rattle.damon_types.specs.declared.space.Target.{Target};

    ghost Value = { List Target };

    ghost use Rattle.damon_types.specs.Layout.{IsLayout};

    ghost view = { λ s. s.targets.items };

    ghost invariant = { λ s. IsLayout s.targets.items s.offsets.items s.pages };
}

impl Space {
    /// A space of these targets. An error is the first limit that they break: the number of
    /// targets, then for each target its pages and its base, then the pages of all. The list must
    /// have fewer than 2^32 targets. Allocates.
    pub fn new(alloc: Global, targets: &[Target]) -> Result<Space, SpaceFault>
        requires { length targets.now < 2 ^ 32 }
        ensures exact { MadeOf targets.now result }
        ensures sound { IfOk result (λ s. IsSpace s) }
    {
        let pages = check_targets(targets)?;
        let offsets = offsets_of(alloc, targets)?;
        let targets = targets.to_vec(alloc)?;
        Ok(Space {
            targets,
            offsets,
            pages,
        })
    }

    /// Checks the limits of targets as [`Space::new`] does. The list must have fewer than 2^32
    /// targets. Does not allocate.
    pub fn check(targets: &[Target]) -> Result<(), SpaceFault>
        requires { length targets.now < 2 ^ 32 }
        ensures { result ≡ checked targets.now }
    {
        check_targets(targets)?;
        Ok(())
    }

    /// The number of targets.
    pub fn targets(&self) -> u32
        ensures count { result ≡ length self.now }
        ensures sound { IsSpace self.now }
    {
        self.targets.len() as u32
    }

    /// The number of pages of all targets.
    pub fn pages(&self) -> u32
        ensures { result ≡ pages_of self.now }
    {
        self.pages
    }

    /// The target with this index, which must be below [`Space::targets`].
    pub fn target(&self, index: u32) -> Target
        requires { index < length self.now }
        ensures { slice_get self.now index ≡ Some result }
    {
        self.targets[index as usize]
    }

    /// The first page of the target with this index, which must be below [`Space::targets`].
    pub fn first_page(&self, index: u32) -> u32
        requires { index < length self.now }
        ensures first { result ≡ offset self.now index }
        ensures sound { IsSpace self.now }
    {
        self.offsets[index as usize]
    }

    /// The page that holds the byte at an address of a target, or `None` if there is no such target
    /// or the byte is outside its pages.
    pub fn page_of(&self, target: u32, addr: u64) -> Option<u32>
        ensures { result ≡ page_of self.now target addr }
    {
        let index = target as usize;
        if index >= self.targets.len() {
            return None;
        }
        let first = self.offsets[index];
        let target = self.targets[index];
        if target.base <= addr && addr < target.base + PAGE_SIZE * u64::from(target.pages) {
            Some(first + ((addr - target.base) / PAGE_SIZE) as u32)
        } else {
            None
        }
    }

    /// The place of the page with this number, which must be below [`Space::pages`].
    pub fn addr_of(&self, page: u32) -> Place
        requires { page < pages_of self.now }
        ensures place { result ≡ place_of self.now page }
        ensures inverse { page_of self.now result.target result.addr ≡ Some page }
        ensures below { result.addr < ADDRESS_END }
    {
        self.place_in(self.target_of(page), page)
    }

    /// The same, found without a search if the page belongs to the target with this number, as the pages of a
    /// row belong to the row's target.
    pub fn addr_near(&self, target: u32, page: u32) -> Place
        requires { page < pages_of self.now }
        ensures place { result ≡ place_of self.now page }
        ensures inverse { page_of self.now result.target result.addr ≡ Some page }
        ensures below { result.addr < ADDRESS_END }
    {
        if self.has_page(target, page) {
            self.place_in(target as usize, page)
        } else {
            self.addr_of(page)
        }
    }

    // The place of a page of the target with this index.
    fn place_in(&self, index: usize, page: u32) -> Place
        requires within { index < length self.now }
        requires from { offset self.now index ≤ page }
        requires to { page < offset self.now (index + 1) }
        ensures place { result ≡ place_of self.now page }
        ensures inverse { page_of self.now result.target result.addr ≡ Some page }
        ensures below { result.addr < ADDRESS_END }
    {
        let first = self.offsets[index];
        let target = self.targets[index];
        Place {
            target: index as u32,
            addr: target.base + PAGE_SIZE * u64::from(page - first),
        }
    }

    // Whether there is a target with this number, and a page belongs to it.
    fn has_page(&self, target: u32, page: u32) -> bool
        ensures within { result ≡ true → target < length self.now }
        ensures from { result ≡ true → offset self.now target ≤ page }
        ensures to { result ≡ true → page < offset self.now (target + 1) }
    {
        let index = target as usize;
        if index >= self.targets.len() {
            return false;
        }
        let first = self.offsets[index];
        first <= page && page - first < self.targets[index].pages
    }

    // The index of the target that a page belongs to: the last one that begins at or before it.
    fn target_of(&self, page: u32) -> usize
        requires { page < pages_of self.now }
        ensures within { result < length self.now }
        ensures from { offset self.now result ≤ page }
        ensures to { page < offset self.now (result + 1) }
    {
        self.offsets.partition_point(|first| *first <= page) - 1
    }
}

impl Clone for Space {
    ghost is_clone = { λ old new. new ≡ old };

    fn clone(&self) -> Result<Self, AllocError> {
        Ok(Space {
            targets: self.targets.clone()?,
            offsets: self.offsets.clone()?,
            pages: self.pages,
        })
    }
}

// The number of pages of targets that break no limit.
fn check_targets(targets: &[Target]) -> Result<u32, SpaceFault>
    requires { length targets.now < 2 ^ 32 }
    ensures { ChecksTo targets.now result }
{
    if targets.is_empty() {
        return Err(SpaceFault::NoTarget);
    }
    if targets.len() > MAX_TARGETS {
        return Err(SpaceFault::TooManyTargets {
            count: targets.len() as u32,
        });
    }
    let mut pages = 0u32;
    for (index, target) in targets.iter().enumerate() {
        if target.pages < 1 || target.pages > MAX_PAGES {
            return Err(SpaceFault::BadPages {
                index: index as u32,
            });
        }
        let size = PAGE_SIZE * u64::from(target.pages);
        if target.base % PAGE_SIZE != 0 || target.base > ADDRESS_END - size {
            return Err(SpaceFault::BadBase {
                index: index as u32,
            });
        }
        pages += target.pages;
    }
    if pages > MAX_PAGES {
        return Err(SpaceFault::TooManyPages {
            total: u64::from(pages),
        });
    }
    Ok(pages)
}

// The first page of each target.
fn offsets_of(alloc: Global, targets: &[Target]) -> Result<Vec<u32>, AllocError>
    requires { pages_of targets.now < 2 ^ 32 }
    ensures count { IfOk result (λ v. length v.items ≡ length targets.now) }
    ensures each { IfOk result (λ v. (i : ℕ) → i < length targets.now
        → slice_index v.items i ≡ offset targets.now i) }
{
    let mut offsets = Vec::new(alloc);
    let mut next = 0;
    for target in targets {
        offsets.push(next)?;
        next += target.pages;
    }
    Ok(offsets)
}
