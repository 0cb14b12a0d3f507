// Streams over readers and writers of std: a failed call is not repeated.
use damon_types::{Failed, Sink, Source, StdSink, StdSource};
use std::io::{self, Cursor, ErrorKind, Read, Write};

// A reader whose first read fails.
#[derive(Drop)]
struct FailsOnce<'a> {
    bytes: &'a [u8],
    failed: bool,
}

impl Read for FailsOnce<'_> {
    fn read(&mut self, buf: &mut [u8]) -> io::Result<usize> {
        if !self.failed {
            self.failed = true;
            return Err(io::Error::from(ErrorKind::Interrupted));
        }
        self.bytes.read(buf)
    }
}

// A writer whose first write fails.
#[derive(Drop)]
struct RefusesOnce {
    refused: bool,
}

impl Write for RefusesOnce {
    fn write(&mut self, buf: &[u8]) -> io::Result<usize> {
        if !self.refused {
            self.refused = true;
            return Err(io::Error::from(ErrorKind::Interrupted));
        }
        Ok(buf.len())
    }

    fn flush(&mut self) -> io::Result<()> {
        Ok(())
    }
}

#[test]
fn a_failed_read_is_not_repeated(rt: HostRuntime) {
    let mut source = StdSource::new(FailsOnce {
        bytes: b"abc",
        failed: false,
    });
    let mut buf = [0; 4];
    assert_eq!(rt; source.read(&mut buf), Err(Failed));
    assert_eq!(rt; source.read(&mut buf), Ok(3));
    assert_eq!(rt; buf, *b"abc\0");
    assert_eq!(rt; source.read(&mut buf), Ok(0));
}

#[test]
fn a_failed_write_is_not_repeated(rt: HostRuntime) {
    let mut sink = StdSink::new(RefusesOnce { refused: false });
    assert_eq!(rt; sink.write(b"ab"), Err(Failed));
    assert_eq!(rt; sink.write(b"ab"), Ok(2));
}

// The cursor returns Ok(0) when its three bytes are full.
#[test]
fn a_writer_of_std_that_takes_nothing_has_failed(rt: HostRuntime) {
    let mut bytes = [0; 3];
    let mut sink = StdSink::new(Cursor::new(bytes.as_mut_slice()));
    assert_eq!(rt; sink.write(b"ab"), Ok(2));
    assert_eq!(rt; sink.write(b"cd"), Ok(1));
    assert_eq!(rt; sink.write(b"d"), Err(Failed));
    assert_eq!(rt; sink.write(b""), Ok(0));
    assert_eq!(rt; bytes, *b"abc");
}
