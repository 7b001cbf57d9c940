//! One call of a source or a sink calls std's reader or writer once, and reports its result: an end of file in the
//! midst of the bytes, and failures of each kind. The reader or writer would go on if it were called again.
use super::RunResult;
use crate::Paper;
use crate::boards::ONE;
use sokopar::{Reader, RunFault, Writer, run_check};
use std::alloc::Global;
use std::io;
use std::io::{ErrorKind, Read, Write};
use std::process::Abort;

/// Kinds of failures, among them an interruption.
const KINDS: [ErrorKind; 5] = [
    ErrorKind::Interrupted,
    ErrorKind::WouldBlock,
    ErrorKind::UnexpectedEof,
    ErrorKind::OutOfMemory,
    ErrorKind::Other,
];

/// A reader that gives some bytes at each read except the second, which fails or gives none.
#[derive(Drop)]
struct Broken<'a> {
    bytes: &'a [u8],
    fails: Option<ErrorKind>,
    reads: usize,
}

impl Read for Broken<'_> {
    fn read(&mut self, buffer: &mut [u8]) -> io::Result<usize> {
        self.reads = self.reads.saturating_add(1);
        if self.reads == 2 {
            return match self.fails {
                Some(kind) => Err(io::Error::from(kind)),
                None => Ok(0),
            };
        }
        let count = self.bytes.len().min(buffer.len());
        buffer[..count].copy_from_slice(&self.bytes[..count]);
        Ok(count)
    }
}

/// A writer whose first write fails or takes nothing, and whose later writes take all bytes.
#[derive(Drop)]
struct Stuck {
    fails: Option<ErrorKind>,
    writes: usize,
    taken: usize,
}

impl Write for Stuck {
    fn write(&mut self, bytes: &[u8]) -> io::Result<usize> {
        self.writes = self.writes.saturating_add(1);
        if self.writes == 1 {
            return match self.fails {
                Some(kind) => Err(io::Error::from(kind)),
                None => Ok(0),
            };
        }
        self.taken = self.taken.saturating_add(bytes.len());
        Ok(bytes.len())
    }

    fn flush(&mut self) -> io::Result<()> {
        Ok(())
    }
}

/// The result of checking a level whose second read fails with this kind, or gives no bytes.
fn read_once(alloc: Global, fails: Option<ErrorKind>) -> RunResult {
    let mut source = Broken {
        bytes: ONE,
        fails,
        reads: 0,
    };
    let mut paper = Paper::new(alloc, usize::MAX, 0);
    let answer = run_check(
        alloc,
        &mut Reader::new(&mut source),
        &mut Writer::new(&mut paper),
    );
    RunResult {
        answer,
        reads: source.reads,
        solution_reads: 0,
        writes: paper.writes,
        text: paper.text,
    }
}

#[test]
fn an_end_is_told_as_it_comes(rt: HostRuntime) {
    let outcome = read_once(rt.alloc(), None);
    outcome.is(&rt, b"1 line 1 ok 3x5 1 boxes\n1 levels, 1 good\n", 0);
    assert_eq!(&rt; outcome.reads, 2);
}

#[test]
fn a_read_that_fails_is_made_once(rt: HostRuntime) {
    for kind in KINDS {
        let outcome = read_once(rt.alloc(), Some(kind));
        outcome.is_fault(&rt, RunFault::Read);
        assert_eq!(&rt; outcome.reads, 2);
    }
}

/// Checks that a write that fails with this kind, or takes nothing, is a failure and the only write.
fn write_once(rt: &impl Abort, alloc: Global, fails: Option<ErrorKind>) {
    let mut sink = Stuck {
        fails,
        writes: 0,
        taken: 0,
    };
    let answer = run_check(alloc, &mut Reader::new(ONE), &mut Writer::new(&mut sink));
    assert_eq!(rt; answer, Err(RunFault::Write));
    assert_eq!(rt; (sink.writes, sink.taken), (1, 0));
}

#[test]
fn a_write_that_fails_is_made_once(rt: HostRuntime) {
    write_once(&rt, rt.alloc(), None);
    for kind in KINDS {
        write_once(&rt, rt.alloc(), Some(kind));
    }
}
