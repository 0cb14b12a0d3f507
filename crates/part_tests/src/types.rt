// Spaces, ranges and lists at values that were worked out by hand.
ghost use Rattle.std.specs.Prelude.{◌≡◌};

use damon_types::{Place, Range, RangeSpec, RangeSpecs, Ranges, Space, SpaceFault, Target};
use std::test::Fail;

const fn target(base: u64, pages: u32) -> Target {
    Target { base, pages }
}

fn range(target: u32, first: u32, pages: u32, class: u8) -> Range
    ensures { result ≡ record { target = target; first = first; pages = pages; class = class } }
{
    Range {
        target,
        first,
        pages,
        class,
    }
}

#[test]
fn pages_have_places(rt: HostRuntime) -> Result<(), Fail> {
    let targets = [target(0x10000, 3), target(0x1000, 2)];
    let space = Space::new(rt.alloc(), &targets)?.clone()?;
    assert_eq!(rt; (space.targets(), space.pages()), (2, 5));
    let place = Place {
        target: 1,
        addr: 0x2000,
    };
    assert_eq!(rt; space.addr_of(4), place);
    Ok(())
}

#[test]
fn messages_are_names(rt: HostRuntime) -> Result<(), Fail> {
    let cases = [
        (SpaceFault::NoTarget, "NoTarget"),
        (SpaceFault::TooManyTargets { count: 65 }, "TooManyTargets"),
        (SpaceFault::BadPages { index: 1 }, "BadPages"),
        (SpaceFault::BadBase { index: 1 }, "BadBase"),
        (
            SpaceFault::TooManyPages { total: 1_048_577 },
            "TooManyPages",
        ),
        (SpaceFault::Memory, "Memory"),
    ];
    for (fault, name) in cases {
        let message = format!(in rt.alloc(); "{fault}")?;
        assert_eq!(rt; message.as_str(), name);
    }
    Ok(())
}

#[test]
fn pages_have_classes(rt: HostRuntime) -> Result<(), Fail> {
    let mut ranges = Ranges::new(rt.alloc(), 2)?;
    ranges.push(range(0, 2, 3, 7));
    ranges.push(range(1, 8, 2, 9));
    let classes = [1, 2, 4, 5, 7, 8, 10].map(|page| ranges.class_of(page));
    assert_eq!(rt;
        classes,
        [None, Some(7), Some(7), None, None, Some(9), None]
    );
    Ok(())
}

#[test]
fn lists_grow(rt: HostRuntime) -> Result<(), Fail> {
    let spec = RangeSpec {
        target: 0,
        from: 0,
        to: 4096,
        class: 1,
    };
    let mut specs = RangeSpecs::new(rt.alloc());
    specs.push(spec)?;
    specs.reserve(2)?;
    specs.put(spec);
    assert_eq!(rt; specs.as_slice(), [spec, spec].as_slice());
    Ok(())
}
