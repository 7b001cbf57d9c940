//! The engines that look for a solution with the fewest pushes. Their reports are proved to be right, but not to be the
//! only right ones: several solutions may have the fewest pushes, and a search may end at its limit with another bound.
//! So [`one_report`](crate::one_report) does not cover them.
#![tactic(auto, using(crate::proofs::Reading::stops_after))]

ghost use Rattle.std.specs.Prelude.{◌≤◌, None, Some, true, false};
ghost use Rattle.sokopar.specs.Levels.{IsBestLine, IsProveLine, IsReport};
ghost use Rattle.sokopar.specs.OneLevel.{IsLevelReport};
ghost use Rattle.sokopar.specs.Runs.{Reads, ReadsBeside, Runs, RunsByLine, WithSolution};

use crate::fault::RunFault;
use crate::folder::Folder;
use crate::judges::{Prover, Searcher};
use crate::levels::send_report;
use crate::one_level::{best_in, prove_in};
use crate::reads::read_whole;
use crate::sink::Sink;
use crate::source::Source;
use crate::watch::Watch;
use judging::Settings;
use std::alloc::Global;
use std::thread::Threads;

/// The level for [`run_best`] or [`run_prove`], counted from 1, the settings of the search, and whether only the solution
/// is written, without the first line of the report. The number of workers, from 1 to
/// [`MAX_WORKERS`](layers::MAX_WORKERS), changes only time and memory. `run_prove` has no cap.
#[derive(Clone, Copy, PartialEq, Eq, Debug)]
pub struct LevelRequest {
    pub number: u32,
    pub workers: u8,
    pub settings: Settings,
    pub lurd: bool,
}

/// The first and the last level for [`run_best_collection`] or [`run_prove_collection`], counted from 1, whether a table
/// is written, whether given solutions are proved by a search or only replayed, and the settings of each search. Levels
/// that the collection lacks are left out.
#[derive(Clone, Copy, PartialEq, Eq, Debug)]
pub struct LevelsRequest {
    pub from: u32,
    pub to: u32,
    pub table: bool,
    pub proves: bool,
    pub workers: u8,
    pub settings: Settings,
}

/// Finds a solution with the fewest pushes of a level of a collection. Writes its numbers of pushes and moves, and the
/// solution as LURD text; or that the level has no solution, or none with as few pushes as the cap; or that the search
/// found more positions than the limit, and a lower bound on the pushes of every solution. Returns the exit status: 0
/// for a solution, 4 at the limit, otherwise 1. The faults are those of [`run_check`](crate::run_check).
///
/// If the request wants the fewest moves, the solution has, of all with the fewest pushes, the fewest moves. If the
/// search for these ends at its limit, it writes another solution with the fewest pushes, says so, and returns 4.
pub fn run_best<R: Threads + Sync, S: Source, P: Watch, K: Sink>(
    rt: &R,
    alloc: Global,
    source: &mut S,
    request: LevelRequest,
    watch: &mut P,
    sink: &mut K,
) -> Result<u8, RunFault>
    requires { 1 ≤ request.number }
    ensures { Runs (Reads (S.seen source.old) (S.seen source.new))
        request.lurd (λ bytes. IsLevelReport false request.settings request.number bytes None)
        (K.seen sink.old) (K.seen sink.new) result }
{
    let bytes = read_whole(alloc, source)?;
    watch.begin(request.number);
    let report = best_in(rt, alloc, bytes.as_slice(), request, watch)?;
    report.send_as(request.lurd, sink)
}

/// Finds a solution with the fewest pushes of each level of a part of a collection, one level after the other. Writes a
/// line for each level before it goes on to the next one, and the totals. Returns the exit status: 0 if it finds a
/// solution for each level and no search ended at its limit, else 5 if a search ran out of memory, else 4 if one ended
/// at its limit, else 1. The totals count a level as open if a search ended at its limit, even if it has a solution
/// with the fewest pushes, or ran out of memory. If no level has a number of at least `from`, it writes that there is
/// no such level, and returns 1.
///
/// A table has a head line, a line with the columns of each level, and no totals.
///
/// Fails as [`run_check`](crate::run_check) does, except that it may run out of memory after some lines; then it has
/// written these lines whole. A search that runs out of memory only ends its level. If a write fails, it has written
/// all lines before whole, and a beginning of this one.
pub fn run_best_collection<R: Threads + Sync, S: Source, P: Watch, K: Sink>(
    rt: &R,
    alloc: Global,
    source: &mut S,
    request: LevelsRequest,
    watch: &mut P,
    sink: &mut K,
) -> Result<u8, RunFault>
    ensures { RunsByLine (IsReport (IsBestLine request) None request) (S.seen source.old) (S.seen source.new)
        (K.seen sink.old) (K.seen sink.new) result }
{
    let bytes = read_whole(alloc, source)?;
    let judge = Searcher { request };
    send_report(
        rt,
        &judge,
        None,
        alloc,
        bytes.as_slice(),
        request,
        watch,
        sink,
    )
}

/// Proves that a solution in LURD text has the fewest pushes of all solutions of a level of a collection. Otherwise it
/// writes a solution with the fewest pushes; or that the search found more positions than the limit, and a lower bound
/// on the pushes of every solution, with a solution that has fewer pushes than the given one if it finds one near it.
/// Returns the exit status: 0 if the solution has the fewest pushes, 4 at the limit without a better solution, otherwise
/// 1. If the text does not solve the level, it writes what [`run_replay`](crate::run_replay) writes. It reads
/// the collection first, and the solution only if the level is lawful. The faults are those of
/// [`run_check`](crate::run_check).
///
/// If the request wants the fewest moves, it also proves that no solution with as few pushes has fewer moves. Otherwise
/// it writes one with the fewest pushes and, of these, the fewest moves. If the search for these ends at its limit, it
/// says so. It returns 4 then, or 1 if it has a solution with fewer pushes, or with as many and fewer moves.
pub fn run_prove<R: Threads + Sync, S: Source, T: Source, P: Watch, K: Sink>(
    rt: &R,
    alloc: Global,
    source: &mut S,
    solution: &mut T,
    request: LevelRequest,
    watch: &mut P,
    sink: &mut K,
) -> Result<u8, RunFault>
    requires { 1 ≤ request.number }
    ensures { Runs
        (ReadsBeside request.number (S.seen source.old) (S.seen source.new) (T.seen solution.old) (T.seen solution.new))
        request.lurd (WithSolution (IsLevelReport true request.settings request.number)
        (T.seen solution.old) (T.seen solution.new))
        (K.seen sink.old) (K.seen sink.new) result }
{
    let bytes = read_whole(alloc, source)?;
    watch.begin(request.number);
    let report = prove_in(rt, alloc, bytes.as_slice(), request, solution, watch)?;
    report.send_as(request.lurd, sink)
}

/// Proves the solutions of a folder, one after the other: for each level of a part of a collection of which the folder
/// has one, it writes the report of [`run_prove`] in one line before it goes on to the next level, and then the totals.
/// A solution that cannot be read, or has more than [`MAX_FILE`](xsb::MAX_FILE) bytes, and one whose search runs out of
/// memory have a line, too. Returns the exit status: 0 if all solutions are optimal, else 5 if a search ran out of
/// memory, else 3 if a solution cannot be read, else 4 if a search ended at its limit, else 1. If no level has a number
/// of at least `from`, it writes that there is no such level, and returns 1. If the folder has no solution of any level
/// of the range, it writes so in place of the totals, and returns 1.
///
/// If the request says that solutions are only replayed, it writes the report of [`run_replay`](crate::run_replay) in one
/// line, for any number of boxes, without a search. Then it returns 0 if all solutions solve their levels.
///
/// A table has a head line, a line with the columns of each of these levels, and no totals.
///
/// It fails as [`run_best_collection`] does.
pub fn run_prove_collection<R: Threads + Sync, S: Source, D: Folder, P: Watch, K: Sink>(
    rt: &R,
    alloc: Global,
    source: &mut S,
    folder: &D,
    request: LevelsRequest,
    watch: &mut P,
    sink: &mut K,
) -> Result<u8, RunFault>
    ensures { RunsByLine
        (IsReport (IsProveLine (D.opened folder.now) D.File.seen request) (Some (D.path_seen folder.now)) request)
        (S.seen source.old) (S.seen source.new) (K.seen sink.old) (K.seen sink.new) result }
{
    let bytes = read_whole(alloc, source)?;
    let judge = Prover { folder, request };
    send_report(
        rt,
        &judge,
        Some(folder.path()),
        alloc,
        bytes.as_slice(),
        request,
        watch,
        sink,
    )
}
