// Setups and the names of their faults.
use damon_types::{
    Attrs, AttrsFault, Range, RangeSpec, SchemeFault, SlotChange, Space, Target, Version,
};
use live_commit::{Setup, SetupFault};
use script_lines::read_scheme_line;
use std::test::Fail;
use target_ranges::RangeWhy;

const TARGET: Target = Target {
    base: 0x10000,
    pages: 16,
};

const THREE: Attrs = Attrs {
    min: 3,
    max: 3,
    aggr: 5,
};

#[test]
fn messages_are_names(rt: HostRuntime) -> Result<(), Fail> {
    let bad_attrs = AttrsFault::MinTooSmall { min: 1 };
    let bad_range = RangeWhy::Overlap;
    let bad_scheme = SchemeFault::ZeroReset;
    let cases = [
        (SetupFault::BadUnit { unit: 0 }, "BadUnit"),
        (SetupFault::BadCap { cap: 2 }, "BadCap"),
        (SetupFault::BadAttrs { why: bad_attrs }, "BadAttrs"),
        (SetupFault::OverCap { max: 9, cap: 8 }, "OverCap"),
        (SetupFault::NoRange, "NoRange"),
        (
            SetupFault::BadRange {
                index: 1,
                why: bad_range,
            },
            "BadRange",
        ),
        (
            SetupFault::RangesOverMax { ranges: 4, max: 3 },
            "RangesOverMax",
        ),
        (
            SetupFault::BadScheme {
                index: 1,
                why: bad_scheme,
            },
            "BadScheme",
        ),
        (SetupFault::RepeatedSlot { index: 1 }, "RepeatedSlot"),
        (SetupFault::Memory, "Memory"),
    ];
    for (fault, name) in cases {
        let message = format!(in rt.alloc(); "{fault}")?;
        assert_eq!(rt; message.as_str(), name);
    }
    Ok(())
}

#[test]
fn a_setup_is_made(rt: HostRuntime) -> Result<(), Fail> {
    let space = Space::new(rt.alloc(), &[TARGET])?;
    let set = read_scheme_line(Version::One, &[], b"scheme 3 stat size=1,2")
        .ok()
        .ok_or("no scheme")?;
    let emptied = SlotChange {
        slot: 4,
        scheme: None,
    };
    let slots = [set, emptied];
    let specs = [RangeSpec {
        target: 0,
        from: 0x12000,
        to: 0x14000,
        class: 7,
    }];
    let setup = Setup::new(rt.alloc(), Version::One, space, 2, 8, THREE, &specs, &slots)?;
    let range = Range {
        target: 0,
        first: 2,
        pages: 2,
        class: 7,
    };
    assert_eq!(rt; setup.ranges.len(), 1);
    assert_eq!(rt; setup.ranges.get(0), range);
    assert_eq!(rt; setup.slots.as_slice(), [slots[0]].as_slice());
    Ok(())
}
