//! Reads many texts from standard input, one in each line behind its name, and says of each what it
//! is: a script, or the first line that is refused and why. Bytes that a line cannot hold are written
//! as `%XX`.
#![tactic(auto)]

use damon_control::{MAX_BYTES, ReadFail, read_script};
use line_text::next_word;
use percent_encoding::percent_decode;
use std::io;

fn main(rt: HostRuntime) -> io::Result<()> {
    for line in rt.lines(rt.alloc()) {
        let line = line?;
        if let Some((name, text)) = next_word(line.as_bytes()) {
            say(&rt, name, text)?;
        }
    }
    Ok(())
}

// Says what a text is.
fn say<R: AllocGlobal + Print>(rt: &R, name: &[u8], text: &[u8]) -> io::Result<()> {
    let name = str::from_utf8(name).unwrap_or("?");
    let mut bytes = Vec::new(rt.alloc());
    percent_decode(text).append_to(&mut bytes)?;
    if bytes.len() > MAX_BYTES {
        return println!(rt; "{name} is too long");
    }
    match read_script(rt.alloc(), &bytes) {
        Ok(_) => println!(rt; "{name} is a script"),
        Err(ReadFail::Script { fault }) => {
            println!(rt; "{name} line {}: {}", fault.line, fault.kind)
        }
        Err(ReadFail::Memory) => println!(rt; "{name} needs memory"),
    }
}
