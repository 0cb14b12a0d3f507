// Results of loads, as a journal keeps them.
ghost use Rattle.std.specs.Prelude.{◌+◌, ◌^◌, ◌≤◌, ◌<◌, length};

use page_bits::BitSet;

/// The results of some loads, one after another, in a set that has the hits.
#[derive(Clone, Copy)]
pub struct LoadRun<'a> {
    pub set: &'a BitSet,
    pub start: u32,
    pub count: u32,
    ghost within: { start + count ≤ length set.now },
    ghost small: { length set.now < 2 ^ 32 },
}
