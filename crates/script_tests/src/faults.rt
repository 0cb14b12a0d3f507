// How a fault of a script is printed. Which fault a text has is a clause of the reader, with examples beside
// its definitions; the faults that a program prints are cases of tests/cases.
use damon_control::{ScriptFault, ScriptKind};
use damon_types::AttrsFault;
use std::test::Fail;
use target_ranges::RangeWhy;

#[test]
fn a_fault_is_printed_with_its_reason(rt: HostRuntime) -> Result<(), Fail> {
    let why = AttrsFault::MinTooSmall { min: 2 };
    let attrs = ScriptFault {
        line: 5,
        kind: ScriptKind::Attrs { why },
    };
    let text = format!(in rt.alloc(); "{attrs}")?;
    assert_eq!(rt; text.as_str(), "line 5: bad attrs (MinTooSmall { min: 2 })");
    let range = ScriptFault {
        line: 7,
        kind: ScriptKind::Range {
            why: RangeWhy::Overlap,
        },
    };
    let text = format!(in rt.alloc(); "{range}")?;
    assert_eq!(rt; text.as_str(), "line 7: bad range (Overlap)");
    let end = ScriptFault {
        line: 14,
        kind: ScriptKind::After,
    };
    let text = format!(in rt.alloc(); "{end}")?;
    assert_eq!(rt; text.as_str(), "line 14: text after end");
    Ok(())
}
