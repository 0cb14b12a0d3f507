// What is written of a setup and of a commit.
use damon_control::{MAX_BYTES, Script, read_script, write_commit, write_setup};
use damon_types::{Attrs, CostPart, RangeSpec, RangeSpecs, SlotChange, Space, Target};
use live_commit::Commit;
use std::alloc::Global;
use std::process::Abort;
use std::test::Fail;

// The lines of a setup of version Two, between the first line and `begin`.
const SETUP: [&[u8]; 8] = [
    b"seed 42\n",
    b"unit 1\n",
    b"cap 8\n",
    b"attrs 3 8 5\n",
    b"target 0x10000 3\n",
    b"range 0 0x10000 0x13000 9\n",
    b"scheme 3 pageout size=2,64 quota=409600,20 time=1000 weights=0,1,3 prefer=cold",
    b" marks=500,400,200 filter=reject:not-class:1\n",
];

// The lines of a commit with each part, between `commit` and `apply`.
const COMMIT: [&[u8]; 5] = [
    b"attrs 3 8 1\n",
    b"range 0 0x10000 0x12000 0\n",
    b"drop 3\n",
    b"metric 300\n",
    b"cost 15 18446744073709551615\n",
];

// The text of these lines.
fn text_of(alloc: Global, lines: &[&[u8]]) -> Result<Vec<u8>, Fail> {
    let mut text = Vec::new(alloc);
    for line in lines {
        text.extend_from_slice(line)?;
    }
    Ok(text)
}

// The script of version Two with the setup above and no command, in a box for the prover's sake.
fn script(rt: &(impl Abort + AllocGlobal)) -> Result<Box<Script>, Fail> {
    let mut text = text_of(rt.alloc(), &[b"damon script 2\n"])?;
    text.extend_from_slice(&text_of(rt.alloc(), &SETUP)?)?;
    text.extend_from_slice(b"begin\nend\n")?;
    assert!(rt; text.len() <= MAX_BYTES);
    let script = read_script(rt.alloc(), &text).ok().ok_or("no script")?;
    Ok(Box::new(rt.alloc(), script)?)
}

#[test]
fn setups_are_written(rt: HostRuntime) -> Result<(), Fail> {
    let script = script(&rt)?;
    let mut out = Vec::new(rt.alloc());
    write_setup(rt.alloc(), &mut out, script.seed, &script.setup)?;
    assert_eq!(rt; out.as_slice(), text_of(rt.alloc(), &SETUP)?.as_slice());
    Ok(())
}

#[test]
fn commits_are_written(rt: HostRuntime) -> Result<(), Fail> {
    let target = Target {
        base: 0x10000,
        pages: 3,
    };
    let space = Space::new(rt.alloc(), &[target]).ok().ok_or("no space")?;
    let mut ranges = RangeSpecs::new(rt.alloc());
    ranges.push(RangeSpec {
        target: 0,
        from: 0x10000,
        to: 0x12000,
        class: 0,
    })?;
    let commit = Commit {
        attrs: Some(Attrs {
            min: 3,
            max: 8,
            aggr: 1,
        }),
        ranges: Some(ranges),
        slot: Some(SlotChange {
            slot: 3,
            scheme: None,
        }),
        metric: Some(300),
        cost: Some(CostPart {
            slot: 15,
            nanos: u64::MAX,
        }),
    };
    let mut out = Vec::new(rt.alloc());
    write_commit(rt.alloc(), &mut out, &space, &commit)?;
    assert_eq!(rt; out.as_slice(), text_of(rt.alloc(), &COMMIT)?.as_slice());
    Ok(())
}
