// Contexts whose lines come in turn.
use damon_admin::{Admin, CONTEXTS};
use damon_control::MAX_BYTES;
use std::alloc::AllocError;
use std::process::Abort;
use std::test::Fail;

// A script of a target of three pages as context 0, and a line that is no script as context 3.
const INPUT: &[u8] = b"\
damon admin 1
0 damon script 1
3 x
0 seed 42
0 unit 1
0 cap 8
0 attrs 3 8 5
0 target 0x10000 3
0 range 0 0x10000 0x13000 0
0 begin
0 step 4
0 touch 0 0x11000
0 step 4
0 show
0 end
";

// What the line `3 x` writes.
const FAULT: &[u8] = b"3 fault line=1 no header\n";

// What the line `0 show` writes.
const SHOW: &[u8] = b"\
0 show tick=1 phase=idle rows=3
0 row 0 0x10000-0x11000 count=0 last=0 age=0
0 row 0 0x11000-0x12000 count=1 last=0 age=0
0 row 0 0x12000-0x13000 count=0 last=0 age=0
";

// What the line `0 end` writes.
const END: &[u8] = b"0 end ticks=1 rows=3 checks=3 hits=1\n";

// The contexts of the input above, in a box, so that the prover has few parts of them to look at.
fn open(rt: &(impl Abort + AllocGlobal)) -> Result<Box<Admin>, AllocError> {
    assert!(rt; INPUT.len() <= MAX_BYTES);
    match Admin::new(rt.alloc(), INPUT) {
        Ok(admin) => Ok(Box::new(rt.alloc(), admin)?),
        Err(_) => panic!(rt; "no contexts"),
    }
}

// Does the next lines, `lines` in number, and gives what they write.
fn do_lines(
    rt: &(impl Abort + AllocGlobal),
    admin: &mut Admin,
    lines: u32,
) -> Result<Vec<u8>, Fail> {
    let mut out = Vec::new(rt.alloc());
    for _ in 0..lines {
        let done = admin.next(rt.alloc(), &mut out)?;
        assert!(rt; done);
    }
    Ok(out)
}

#[test]
fn each_line_writes_at_its_place(rt: HostRuntime) -> Result<(), Fail> {
    let mut admin = open(&rt)?;
    for (lines, text) in [
        (1, b"".as_slice()),
        (1, FAULT),
        (10, b"".as_slice()),
        (1, SHOW),
        (1, END),
    ] {
        assert_eq!(rt; do_lines(&rt, &mut admin, lines)?.as_slice(), text);
    }
    Ok(())
}

// The passes and the hits of the monitor of a context.
fn counts(rt: &impl Abort, admin: &Admin, context: u32) -> Option<(u64, u64)> {
    assert!(rt; context < CONTEXTS);
    let monitor = admin.context(context)?;
    Some((monitor.ticks(), monitor.hits()))
}

#[test]
fn a_context_has_the_monitor_of_its_lines(rt: HostRuntime) -> Result<(), Fail> {
    let mut admin = open(&rt)?;
    do_lines(&rt, &mut admin, 11)?;
    assert_eq!(rt; counts(&rt, &admin, 0), Some((0, 0)));
    do_lines(&rt, &mut admin, 1)?;
    assert_eq!(rt; counts(&rt, &admin, 0), Some((1, 1)));
    // The line of context 3 is no script, and context 7 has no line.
    assert_eq!(rt; counts(&rt, &admin, 3), None);
    assert_eq!(rt; counts(&rt, &admin, 7), None);
    Ok(())
}
