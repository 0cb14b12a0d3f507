// A set of bits at the end of a word.
use page_bits::BitSet;
use std::test::Fail;

#[test]
fn a_set_has_what_was_put(rt: HostRuntime) -> Result<(), Fail> {
    let mut set = BitSet::none(rt.alloc(), 70)?;
    set.put(63, true);
    set.put(64, true);
    assert_eq!(rt; (set.has(63), set.has(65)), (true, false));
    assert_eq!(rt; (set.take(64), set.take(64)), (true, false));
    Ok(())
}
