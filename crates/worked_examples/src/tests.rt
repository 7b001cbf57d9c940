//! The engines over memory.
mod failing;
mod largest;
mod levels;
mod moves;
mod once;
mod passed;
mod reports;
mod stopped;
mod timed;

use crate::{Paper, Pieces};
use crew::Config;
use layers::{MAX_SHARES, MAX_WORKERS};
use sokopar::{
    Reader, RunFault, Sink, Source, Writer, run_check, run_dead, run_replay, run_show, run_solve,
};
use std::alloc::Global;
use std::process::Abort;
use std::sync::Wait;
use std::thread::Threads;

/// The result of a run, its report, and the numbers of its reads and writes.
#[derive(Drop)]
pub(crate) struct RunResult {
    pub(crate) answer: Result<u8, RunFault>,
    pub(crate) text: Vec<u8>,
    pub(crate) reads: usize,
    pub(crate) solution_reads: usize,
    pub(crate) writes: usize,
}

/// The ends of a run: the bytes moved at a time, and the number of the read or write that fails, if not 0.
#[derive(Clone, Copy)]
pub(crate) struct Ends {
    pub(crate) read_most: usize,
    pub(crate) write_most: usize,
    pub(crate) read_fails: usize,
    pub(crate) solution_fails: usize,
    pub(crate) write_fails: usize,
}

/// Ends that move all bytes at once and never fail.
pub(crate) const WELL: Ends = Ends {
    read_most: usize::MAX,
    write_most: usize::MAX,
    read_fails: 0,
    solution_fails: 0,
    write_fails: 0,
};

/// The default limit of positions of the program.
pub(crate) const DEFAULT_LIMIT: u32 = 1_000_000;

/// A command on a collection.
#[derive(Clone, Copy)]
pub(crate) enum Command<'a> {
    Check,
    Show(u32),
    Dead(u32),
    Replay(u32, &'a [u8]),
    /// The numbers of a level, of workers and of locks.
    Solve(u32, u8, u8),
}

/// Runs the engine of a command. It replaces numbers of levels, workers and locks that are out of range by the nearest
/// ones in range.
fn perform<R: Threads + Wait + Sync, S: Source, T: Source, K: Sink>(
    rt: &R,
    alloc: Global,
    command: Command<'_>,
    source: &mut S,
    solution: &mut T,
    sink: &mut K,
) -> Result<u8, RunFault> {
    match command {
        Command::Check => run_check(alloc, source, sink),
        Command::Show(number) => run_show(alloc, source, number.max(1), sink),
        Command::Dead(number) => run_dead(alloc, source, number.max(1), sink),
        Command::Replay(number, _) => run_replay(alloc, source, number.max(1), solution, sink),
        Command::Solve(number, workers, locks) => {
            let config = Config {
                workers: workers.max(1).min(MAX_WORKERS),
                locks: locks.max(1).min(MAX_SHARES),
                limit: DEFAULT_LIMIT,
                cap: None,
            };
            run_solve(rt, alloc, source, number.max(1), config, sink)
        }
    }
}

/// Runs a command on a collection with these ends.
pub(crate) fn run<R: Threads + Wait + Sync>(
    rt: &R,
    alloc: Global,
    file: &[u8],
    command: Command<'_>,
    ends: Ends,
) -> RunResult {
    let solution = match command {
        Command::Replay(_, solution) => solution,
        _ => b"",
    };
    let mut pieces = Pieces::new(file, ends.read_most, ends.read_fails);
    let mut letters = Pieces::new(solution, ends.read_most, ends.solution_fails);
    let mut paper = Paper::new(alloc, ends.write_most, ends.write_fails);
    let answer = perform(
        rt,
        alloc,
        command,
        &mut Reader::new(&mut pieces),
        &mut Reader::new(&mut letters),
        &mut Writer::new(&mut paper),
    );
    RunResult {
        answer,
        reads: pieces.reads,
        solution_reads: letters.reads,
        writes: paper.writes,
        text: paper.text,
    }
}

impl RunResult {
    /// Checks that the run wrote this report and returned this status.
    pub(crate) fn is(&self, rt: &impl Abort, report: &[u8], status: u8) {
        assert_eq!(rt; self.answer, Ok(status));
        assert_eq!(rt; self.text.as_slice(), report);
    }

    /// Checks that the run returned this fault and wrote nothing.
    pub(crate) fn is_fault(&self, rt: &impl Abort, fault: RunFault) {
        assert_eq!(rt; self.answer, Err(fault));
        assert!(rt; self.text.is_empty());
    }
}
