// Runs whose input or output fails in the middle. Other whole runs are cases of tests/cases.
use damon_app::replay_main;
use damon_journal::Status;
use damon_types::{FaultSink, FaultSource};
use std::alloc::{AllocError, Global};
use std::test::Fail;

// A pass over three pages.
const SCRIPT: &[u8] = b"\
damon script 1
seed 42
unit 1
cap 8
attrs 3 8 5
target 0x10000 3
range 0 0x10000 0x13000 0
begin
step 4
touch 0 0x11000
step 4
show
end
";

// Its report.
const REPORT: &[u8] = b"\
show tick=1 phase=idle rows=3
row 0 0x10000-0x11000 count=0 last=0 age=0
row 0 0x11000-0x12000 count=1 last=0 age=0
row 0 0x12000-0x13000 count=0 last=0 age=0
end ticks=1 rows=3 checks=3 hits=1
";

// The status of a run of a script that comes from this source.
fn replay(
    alloc: Global,
    source: &mut FaultSource<'_>,
    sink: &mut FaultSink<'_>,
) -> Result<Status, AllocError> {
    let mut words = Vec::new(alloc);
    words.push(String::from_str(alloc, "replay")?)?;
    Ok(replay_main(alloc, &words, source, sink))
}

#[test]
fn a_read_of_the_script_fails(rt: HostRuntime) -> Result<(), Fail> {
    let mut source = FaultSource::new(SCRIPT, 100, &[2]);
    let mut sink = FaultSink::new(rt.alloc(), 1000, 100, &[])?;
    let answer = replay(rt.alloc(), &mut source, &mut sink)?;
    assert_eq!(rt;
        (answer, source.calls(), sink.calls()),
        (Status::ReadFault, 2, 0)
    );
    Ok(())
}

#[test]
fn a_write_of_the_report_fails(rt: HostRuntime) -> Result<(), Fail> {
    let mut source = FaultSource::new(SCRIPT, 1000, &[]);
    let mut sink = FaultSink::new(rt.alloc(), 1000, 10, &[3])?;
    let answer = replay(rt.alloc(), &mut source, &mut sink)?;
    let taken = b"show tick=1 phase=id".as_slice();
    assert_eq!(rt; (answer, sink.bytes()), (Status::WriteFault, taken));
    Ok(())
}

// The script has 136 bytes. A source of one byte a call gives them in as many calls, and ends in one more.
#[test]
fn each_read_that_fails_ends_the_run(rt: HostRuntime) -> Result<(), Fail> {
    for failing in 1..138u32 {
        let fails = [failing];
        let mut source = FaultSource::new(SCRIPT, 1, &fails);
        let mut sink = FaultSink::new(rt.alloc(), 1000, 1000, &[])?;
        let answer = replay(rt.alloc(), &mut source, &mut sink)?;
        let ended = (Status::ReadFault, failing as u64, 0);
        assert_eq!(rt; (answer, source.calls(), sink.calls()), ended);
    }
    Ok(())
}

// The report has 194 bytes, and a sink of one byte a call takes them in as many calls. What it took before
// the one that fails are the first bytes of the report.
#[test]
fn each_write_that_fails_ends_the_run(rt: HostRuntime) -> Result<(), Fail> {
    for failing in 1..195u32 {
        let fails = [failing];
        let mut source = FaultSource::new(SCRIPT, 1000, &[]);
        let mut sink = FaultSink::new(rt.alloc(), 1000, 1, &fails)?;
        let answer = replay(rt.alloc(), &mut source, &mut sink)?;
        let taken = sink.bytes();
        let ended = (
            Status::WriteFault,
            failing as u64,
            failing as usize - 1,
            true,
        );
        assert_eq!(rt;
            (answer, sink.calls(), taken.len(), REPORT.starts_with(taken)),
            ended
        );
    }
    Ok(())
}

#[test]
fn calls_beyond_those_do_not_come(rt: HostRuntime) -> Result<(), Fail> {
    let mut source = FaultSource::new(SCRIPT, 1, &[138]);
    let mut sink = FaultSink::new(rt.alloc(), 1000, 1, &[195])?;
    let answer = replay(rt.alloc(), &mut source, &mut sink)?;
    assert_eq!(rt;
        (answer, source.calls(), sink.calls()),
        (Status::Ok, 137, 194)
    );
    Ok(())
}
