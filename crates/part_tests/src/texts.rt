// Numbers that are appended.
use line_text::{SPACE, write_number};
use std::test::Fail;

#[test]
fn appends_numbers(rt: HostRuntime) -> Result<(), Fail> {
    let mut out = Vec::new(rt.alloc());
    write_number(&mut out, 0)?;
    out.push(SPACE)?;
    write_number(&mut out, u64::MAX)?;
    assert_eq!(rt; out.as_slice(), b"0 18446744073709551615".as_slice());
    Ok(())
}
