// Reading and writing in pieces. Inputs at their limit and the line of each status are cases of tests/cases.
ghost use Rattle.std.specs.Prelude.{◌≤◌};

use crate::fakes::KeptSink;
use damon_types::FaultSource;
use std::alloc::{AllocError, Global};
use std::process::Abort;
use std::test::Fail;
use text_io::{read_all, write_all};

// This number of bytes, where each one tells its place.
fn placed_bytes(alloc: Global, count: u32) -> Result<Vec<u8>, AllocError> {
    let mut bytes = Vec::new(alloc);
    for place in 0..count {
        bytes.push((place % 251) as u8)?;
    }
    Ok(bytes)
}

// Sees that these bytes are read whole when they come in pieces of this size.
fn expect_read(rt: &(impl Abort + AllocGlobal), bytes: &[u8], piece: u32)
    requires { 1 ≤ piece }
{
    match read_all(rt.alloc(), &mut FaultSource::new(bytes, piece, &[])) {
        Ok(read) => assert_eq!(rt; read.as_slice(), bytes),
        Err(fault) => panic!(rt; "{fault:?}"),
    }
}

// Lines of 100 bytes.
fn lines(alloc: Global, count: u32) -> Result<Vec<u8>, AllocError> {
    let mut text = Vec::new(alloc);
    for _ in 0..count {
        text.extend_from_slice(&[b'a'; 99])?;
        text.push(b'\n')?;
    }
    Ok(text)
}

#[test]
fn an_input_comes_in_pieces(rt: HostRuntime) -> Result<(), Fail> {
    let input = placed_bytes(rt.alloc(), 150_001)?;
    expect_read(&rt, &input, 1);
    expect_read(&rt, &input, 100);
    expect_read(&rt, &input, 1_000_000);
    Ok(())
}

#[test]
fn pieces_end_at_line_ends(rt: HostRuntime) -> Result<(), Fail> {
    let text = lines(rt.alloc(), 2000)?;
    let mut whole = KeptSink::new(rt.alloc(), 1_000_000);
    assert_eq!(rt; write_all(&mut whole, &text), Ok(()));
    assert_eq!(rt; whole.taken.as_slice(), text.as_slice());
    assert_eq!(rt;
        whole.handed.as_slice(),
        [65_500, 65_500, 65_500, 3_500].as_slice()
    );

    let mut short = KeptSink::new(rt.alloc(), 60_000);
    assert_eq!(rt; write_all(&mut short, &text), Ok(()));
    assert_eq!(rt; short.taken.as_slice(), text.as_slice());
    let handed = [65_500, 5_500, 65_500, 5_500, 65_500, 5_500, 3_500];
    assert_eq!(rt; short.handed.as_slice(), handed.as_slice());
    Ok(())
}
