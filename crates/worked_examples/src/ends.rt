//! A reader and a writer over memory that move few bytes at a time, and fail at a chosen call.
use std::alloc::Global;
use std::io;
use std::io::{ErrorKind, Read, Write};

/// A reader of some bytes.
#[derive(Drop)]
pub struct Pieces<'a> {
    rest: &'a [u8],
    most: usize,
    fails_at: usize,
    /// The number of reads.
    pub reads: usize,
}

impl<'a> Pieces<'a> {
    /// A reader that gives at most `most` bytes a read. The read of this number, from 1, fails; none if it is 0.
    pub fn new(bytes: &'a [u8], most: usize, fails_at: usize) -> Pieces<'a> {
        Pieces {
            rest: bytes,
            most,
            fails_at,
            reads: 0,
        }
    }
}

impl Read for Pieces<'_> {
    fn read(&mut self, buffer: &mut [u8]) -> io::Result<usize> {
        self.reads = self.reads.saturating_add(1);
        if self.reads == self.fails_at {
            return Err(io::Error::from(ErrorKind::Other));
        }
        let count = self.rest.len().min(buffer.len()).min(self.most);
        let (given, rest) = self.rest.split_at(count);
        buffer[..count].copy_from_slice(given);
        self.rest = rest;
        Ok(count)
    }
}

/// A writer that keeps the bytes that it takes.
#[derive(Drop)]
pub struct Paper {
    /// The bytes that it has taken.
    pub text: Vec<u8>,
    most: usize,
    fails_at: usize,
    /// The number of writes.
    pub writes: usize,
}

impl Paper {
    /// A writer that takes at most `most` bytes a write. The write of this number, from 1, fails; none if it is 0.
    pub fn new(alloc: Global, most: usize, fails_at: usize) -> Paper {
        Paper {
            text: Vec::new(alloc),
            most,
            fails_at,
            writes: 0,
        }
    }
}

impl Write for Paper {
    fn write(&mut self, bytes: &[u8]) -> io::Result<usize> {
        self.writes = self.writes.saturating_add(1);
        if self.writes == self.fails_at {
            return Err(io::Error::from(ErrorKind::Other));
        }
        let count = bytes.len().min(self.most);
        self.text.extend_from_slice(&bytes[..count])?;
        Ok(count)
    }

    fn flush(&mut self) -> io::Result<()> {
        Ok(())
    }
}
