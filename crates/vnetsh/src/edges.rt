// A reader and a writer that count their calls, one of which fails.
use std::alloc::Global;
use std::io;
use std::io::{ErrorKind, Read, Write};

/// A text that is read in pieces. The call of one number fails, and the next would not.
#[derive(Drop)]
pub struct Reader<'a> {
    pub rest: &'a [u8],
    pub piece: usize,
    pub failing: u64,
    pub calls: u64,
}

impl<'a> Reader<'a> {
    /// No call has number 0.
    pub fn new(text: &'a str, piece: usize, failing: u64) -> Reader<'a> {
        Reader {
            rest: text.as_bytes(),
            piece,
            failing,
            calls: 0,
        }
    }
}

impl Read for Reader<'_> {
    fn read(&mut self, buf: &mut [u8]) -> io::Result<usize> {
        self.calls = self.calls.saturating_add(1);
        if self.calls == self.failing {
            return Err(ErrorKind::Interrupted.into());
        }
        let count = self.piece.min(buf.len());
        self.rest.read(&mut buf[..count])
    }
}

/// What is written in pieces. The call of one number fails, and the next would not.
#[derive(Drop)]
pub struct Writer {
    pub octets: Vec<u8>,
    pub piece: usize,
    pub failing: u64,
    pub calls: u64,
}

impl Writer {
    /// No call has number 0.
    pub fn new(alloc: Global, piece: usize, failing: u64) -> Writer {
        Writer {
            octets: Vec::new(alloc),
            piece,
            failing,
            calls: 0,
        }
    }
}

impl Write for Writer {
    fn write(&mut self, buf: &[u8]) -> io::Result<usize> {
        self.calls = self.calls.saturating_add(1);
        if self.calls == self.failing {
            return Err(ErrorKind::Interrupted.into());
        }
        let count = self.piece.min(buf.len());
        self.octets.write(&buf[..count])
    }

    fn flush(&mut self) -> io::Result<()> {
        Ok(())
    }
}
