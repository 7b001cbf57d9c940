#![tactic(auto, using(crate::proofs::Reading::stops_after))]

ghost use Rattle.std.specs.Prelude.{◌≡◌, ◌≤◌, false};
ghost use Rattle.crew.specs.Configured.{IsWithinLimits};
ghost use Rattle.sokopar.specs.DeadMap.{IsDeadReport};
ghost use Rattle.sokopar.specs.OneReport.{IsOnlySolveReport};
ghost use Rattle.sokopar.specs.Report.{IsCheckReport, IsReplayReport, IsShowReport};
ghost use Rattle.sokopar.specs.Runs.{Reads, ReadsBeside, Runs, WithSolution};
ghost use Rattle.sokopar.specs.Showing.{IsRangeReport};

use crate::check::check_report;
use crate::dead::dead_in;
use crate::fault::RunFault;
use crate::reads::read_whole;
use crate::replay::replay_in;
use crate::show::show_in;
use crate::showing::show_range;
use crate::sink::Sink;
use crate::solve::solve_in;
use crate::source::Source;
use crew::{Config, Free, Gate};
use std::alloc::Global;
use std::sync::Wait;
use std::thread::Threads;

/// Checks a collection: writes a line for each level, and the totals. Returns the exit status: 0 if each level is
/// lawful, otherwise 1.
///
/// Fails with [`RunFault::Read`] if a read fails, with [`RunFault::TooLong`] for more than [`MAX_FILE`](xsb::MAX_FILE)
/// bytes, and with [`RunFault::OutOfMemory`]; then it has written nothing. Fails with [`RunFault::Write`] if a write
/// fails; then it has written a beginning of the report.
pub fn run_check<S: Source, K: Sink>(
    alloc: Global,
    source: &mut S,
    sink: &mut K,
) -> Result<u8, RunFault>
    ensures { Runs (Reads (S.seen source.old) (S.seen source.new)) false IsCheckReport
        (K.seen sink.old) (K.seen sink.new) result }
{
    let bytes = read_whole(alloc, source)?;
    let report = check_report(alloc, bytes.as_slice())?;
    report.send(sink)
}

/// Shows the level with a number, counted from 1, in plain rows. Returns the exit status: 0 if there is such a level
/// and it is lawful, otherwise 1. The faults are those of [`run_check`].
pub fn run_show<S: Source, K: Sink>(
    alloc: Global,
    source: &mut S,
    number: u32,
    sink: &mut K,
) -> Result<u8, RunFault>
    requires { 1 ≤ number }
    ensures { Runs (Reads (S.seen source.old) (S.seen source.new)) false (IsShowReport number)
        (K.seen sink.old) (K.seen sink.new) result }
{
    let bytes = read_whole(alloc, source)?;
    let report = show_in(alloc, bytes.as_slice(), number)?;
    report.send(sink)
}

/// Shows the levels of a part of a collection, from the first to the last number, counted from 1: the name of each, its
/// rows and an empty line. A faulty level is a comment with the line of [`run_check`](crate::run_check). Returns the exit
/// status: 0 if they are lawful, else 1. If no level has a number of at least `from`, it writes that there is no such
/// level, and returns 1. The faults are those of [`run_check`](crate::run_check).
pub fn run_show_range<S: Source, K: Sink>(
    alloc: Global,
    source: &mut S,
    from: u32,
    to: u32,
    sink: &mut K,
) -> Result<u8, RunFault>
    ensures { Runs (Reads (S.seen source.old) (S.seen source.new)) false (IsRangeReport from to)
        (K.seen sink.old) (K.seen sink.new) result }
{
    let bytes = read_whole(alloc, source)?;
    let report = show_range(alloc, bytes.as_slice(), from, to)?;
    report.send(sink)
}

/// Shows walls, goals and dead squares of a level of a collection, counted from 1. Returns the exit status: 0 if there
/// is such a level and it is lawful, otherwise 1. The faults are those of [`run_check`].
pub fn run_dead<S: Source, K: Sink>(
    alloc: Global,
    source: &mut S,
    number: u32,
    sink: &mut K,
) -> Result<u8, RunFault>
    requires { 1 ≤ number }
    ensures { Runs (Reads (S.seen source.old) (S.seen source.new)) false (IsDeadReport number)
        (K.seen sink.old) (K.seen sink.new) result }
{
    let bytes = read_whole(alloc, source)?;
    let report = dead_in(alloc, bytes.as_slice(), number)?;
    report.send(sink)
}

/// Replays a solution in LURD text on a level of a collection, counted from 1. Returns the exit status: 0 if the
/// solution solves the level, otherwise 1. It reads the collection first, and the solution only if the level is lawful.
/// The faults are those of [`run_check`].
pub fn run_replay<S: Source, T: Source, K: Sink>(
    alloc: Global,
    source: &mut S,
    number: u32,
    solution: &mut T,
    sink: &mut K,
) -> Result<u8, RunFault>
    requires { 1 ≤ number }
    ensures { Runs
        (ReadsBeside number (S.seen source.old) (S.seen source.new) (T.seen solution.old) (T.seen solution.new))
        false (WithSolution (IsReplayReport number) (T.seen solution.old) (T.seen solution.new))
        (K.seen sink.old) (K.seen sink.new) result }
{
    let bytes = read_whole(alloc, source)?;
    let report = replay_in(alloc, bytes.as_slice(), number, solution)?;
    report.send(sink)
}

/// Solves a level of a collection, counted from 1, with the fewest pushes, by the configuration's workers. Writes the
/// numbers of its least solution and the solution as LURD text, or that there is none, or that the limit of positions
/// is too low to tell. Returns the exit status: 0 if the level is solved, 4 at the limit, otherwise 1. The report is
/// the only one for these bytes, this cap and this limit, so it does not depend on the numbers of workers and locks.
/// The faults are those of [`run_check`].
pub fn run_solve<R: Threads + Wait + Sync, S: Source, K: Sink>(
    rt: &R,
    alloc: Global,
    source: &mut S,
    number: u32,
    config: Config,
    sink: &mut K,
) -> Result<u8, RunFault>
    requires number { 1 ≤ number }
    requires limits { IsWithinLimits config }
    ensures { Runs (Reads (S.seen source.old) (S.seen source.new))
        false (IsOnlySolveReport config.cap config.limit number) (K.seen sink.old) (K.seen sink.new) result }
{
    let request = SolveRequest {
        number,
        config,
        lurd: false,
    };
    run_solve_with(rt, alloc, source, request, &Free, sink)
}

/// The level for [`run_solve_with`], counted from 1, the configuration of the search, and whether it writes only the
/// solution, without the first line of its report.
#[derive(Clone, Copy, PartialEq, Eq, Debug)]
pub struct SolveRequest {
    pub number: u32,
    pub config: Config,
    pub lurd: bool,
}

/// Solves a level as [`run_solve`] does, and calls a gate after each event of a worker: the gate decides whether that
/// worker goes on. The report is the same for every gate.
pub fn run_solve_with<R: Threads + Wait + Sync, S: Source, G: Gate + Sync, K: Sink>(
    rt: &R,
    alloc: Global,
    source: &mut S,
    request: SolveRequest,
    gate: &G,
    sink: &mut K,
) -> Result<u8, RunFault>
    requires number { 1 ≤ request.number }
    requires limits { IsWithinLimits request.config }
    ensures { Runs (Reads (S.seen source.old) (S.seen source.new))
        request.lurd (IsOnlySolveReport request.config.cap request.config.limit request.number)
        (K.seen sink.old) (K.seen sink.new) result }
{
    let SolveRequest {
        number,
        config,
        lurd,
    } = request;
    let bytes = read_whole(alloc, source)?;
    let report = solve_in(rt, alloc, bytes.as_slice(), number, config, gate)?;
    report.send_as(lurd, sink)
}
