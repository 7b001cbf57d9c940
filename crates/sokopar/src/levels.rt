//! Reports on the levels of a collection, which are written line by line.
ghost use Rattle.std.specs.Prelude.{◌≡◌, ◌≤◌, ◌++◌, ◌∷◌, [], length, Err, IfOk, IfErr, OnOk, MatchBool, codes, option_map};
ghost use Rattle.sokopar.specs.Entries.{listed_of};
ghost use Rattle.sokopar.specs.Levels.{EndsWith, IsBetween, IsLine, IsReport, last_line, last_status};
ghost use Rattle.sokopar.specs.Runs.{WritesByLine, WritesPart, WritesWhole};
ghost use Rattle.judging.specs.Words.{line};
ghost use Rattle.sokopar.specs.inside.Sending.{Begins, SendsLevels};

use crate::fault::RunFault;
use crate::judge::Judge;
use crate::proving::LevelsRequest;
use crate::report::Report;
use crate::show::no_level;
use crate::sink::Sink;
use crate::watch::Watch;
use crate::writes::write_whole;
use judging::{Kind, Text, all_missing, head_of, put_level_line, put_totals, worst_status};
use std::alloc::{AllocError, Global};
use std::thread::Threads;
use xsb::{BoardEntry, Collection, MAX_FILE};

/// Whether a number is in a range, both ends included.
fn is_between(from: u32, to: u32, number: u32) -> bool
    ensures { MatchBool result (IsBetween from to number) (¬ (IsBetween from to number)) }
{
    from <= number && number <= to
}

/// Writes a line.
fn send_line<K: Sink>(line: &[u8], sink: &mut K) -> Result<(), RunFault>
    ensures ok { OnOk result (WritesWhole (K.seen sink.old) (K.seen sink.new) line.now) }
    ensures err { IfErr result (λ fault. (fault ≡ RunFault.Write) × WritesPart (K.seen sink.old) (K.seen sink.new) line.now) }
{
    match write_whole(sink, line) {
        Ok(()) => Ok(()),
        Err(_) => Err(RunFault::Write),
    }
}

/// The number of the last level of a range: that of the collection, if it ends before. `None` if out of memory.
fn last_of(alloc: Global, bytes: &[u8], to: u32) -> Option<u32> {
    let mut collection = Collection::of(bytes).ok()?;
    let mut count: u32 = 0;
    'boards: while count < to {
        let Ok(next) = collection.next_board(alloc) else {
            return None;
        };
        if next.is_none() {
            break;
        }
        count += 1;
    }
    Some(count)
}

/// Judges a level. Returns its line, and how it counts.
#[tactic(auto, using(crate::proofs::ByLine::line_judged))]
fn line_of<R: Threads + Sync, J: Judge, P: Watch>(
    rt: &R,
    judge: &J,
    alloc: Global,
    request: LevelsRequest,
    number: u32,
    board: BoardEntry,
    watch: &mut P,
) -> Result<(Text, Kind), AllocError>
    requires { 1 ≤ number }
    ensures { IfOk result (λ one. IsLine (J.is_right judge.now) request number (listed_of board)
        (record { text = one.0; kind = one.1 })) }
{
    let entry = board.into_entry(alloc)?;
    let judgement = judge.judge(rt, alloc, number, &entry.board, watch);
    let mut text = Text::new(alloc);
    put_level_line(
        &mut text,
        request.table,
        request.settings,
        number,
        &entry,
        &judgement,
    )?;
    Ok((text, judgement.kind()))
}

/// Keeps how a level counts.
fn keep(kinds: &mut Vec<Kind>, kind: Kind) -> Result<(), AllocError>
    ensures { OnOk result (kinds.new.items ≡ kinds.old.items ++ kind ∷ []) }
{
    kinds.push(kind)?;
    Ok(())
}

/// Writes the first line of a table or none, and then judges the levels of a range one after the other, and writes the
/// line of each before it goes on. Keeps how they count, and returns the number of levels of the collection.
#[tactic(auto, using(crate::proofs::ByLine::reported_none))]
fn send_levels<R: Threads + Sync, J: Judge, P: Watch, K: Sink>(
    rt: &R,
    judge: &J,
    alloc: Global,
    bytes: &[u8],
    request: LevelsRequest,
    kinds: &mut Vec<Kind>,
    watch: &mut P,
    sink: &mut K,
) -> Result<u32, RunFault>
    requires bound { length bytes.now ≤ MAX_FILE }
    requires none { kinds.old.items ≡ [] }
    ensures ok { IfOk result (λ count. SendsLevels (IsLine (J.is_right judge.now) request) request bytes.now
        count kinds.new.items (K.seen sink.old) (K.seen sink.new)) }
    ensures err { IfErr result (λ fault. WritesByLine (Begins (IsLine (J.is_right judge.now) request) request bytes.now)
        (K.seen sink.old) (K.seen sink.new) (Err fault)) }
{
    let Ok(mut collection) = Collection::of(bytes) else {
        unreachable!();
    };
    send_line(head_of(request.table), sink)?;
    let mut number: u32 = 0;
    'boards: loop {
        let Some(board) = collection.next_board(alloc)? else {
            break;
        };
        number += 1;
        if is_between(request.from, request.to, number) {
            let (text, kind) = line_of(rt, judge, alloc, request, number, board, watch)?;
            keep(kinds, kind)?;
            send_line(text.as_slice(), sink)?;
        }
    }
    Ok(number)
}

/// Appends that a folder has no solution of any level.
fn put_none_in(text: &mut Text, folder: &[u8]) -> Result<(), AllocError>
    ensures { OnOk result (text.new ≡ text.old ++ line (codes "no solution in " ++ folder.now)) }
{
    text.put(b"no solution in ")?;
    text.put(folder)?;
    text.put(b"\n")
}

/// Appends the last line of a report on levels of these kinds.
fn put_last(
    text: &mut Text,
    folder: Option<&[u8]>,
    request: LevelsRequest,
    kinds: &[Kind],
) -> Result<(), AllocError>
    ensures { OnOk result (text.new ≡ text.old ++ last_line (option_map (λ path. path.now) folder.entry) request kinds.now) }
{
    let cap = request.settings.cap;
    match folder {
        Some(path) if all_missing(kinds) => put_none_in(text, path),
        _ if request.table => Ok(()),
        Some(_) => put_totals(text, true, request.proves, cap, kinds),
        None => put_totals(text, false, request.proves, cap, kinds),
    }
}

/// The exit status of a report on levels of these kinds.
fn last_status(folder: Option<&[u8]>, kinds: &[Kind]) -> u8
    ensures { result ≡ last_status (option_map (λ path. path.now) folder.entry) kinds.now }
{
    match folder {
        Some(_) if all_missing(kinds) => 1,
        _ => worst_status(kinds),
    }
}

/// The end of a report: that the collection, with this number of levels, has none with the first number of the range;
/// else the last line and the exit status.
#[tactic(auto, using(crate::proofs::ByLine::ends_beyond, crate::proofs::ByLine::ends_within))]
fn end_of(
    alloc: Global,
    folder: Option<&[u8]>,
    request: LevelsRequest,
    levels: u32,
    kinds: &[Kind],
) -> Result<Report, AllocError>
    ensures { IfOk result (λ end. EndsWith request.from levels
        (last_line (option_map (λ path. path.now) folder.entry) request kinds.now)
        (last_status (option_map (λ path. path.now) folder.entry) kinds.now) end.text end.status) }
{
    if levels < request.from {
        return no_level(alloc, request.from);
    }
    let mut text = Text::new(alloc);
    put_last(&mut text, folder, request, kinds)?;
    Ok(Report::new(text, last_status(folder, kinds)))
}

/// Writes the report on the levels of a range: the line of each as soon as it is known. `folder` is the path of the folder
/// of their solutions, if these are given. Returns the exit status.
#[tactic(auto, using(crate::proofs::ByLine::stopped_levels))]
pub(crate) fn send_report<R: Threads + Sync, J: Judge, P: Watch, K: Sink>(
    rt: &R,
    judge: &J,
    folder: Option<&[u8]>,
    alloc: Global,
    bytes: &[u8],
    request: LevelsRequest,
    watch: &mut P,
    sink: &mut K,
) -> Result<u8, RunFault>
    requires { length bytes.now ≤ MAX_FILE }
    ensures { WritesByLine
        (IsReport (IsLine (J.is_right judge.now) request) (option_map (λ path. path.now) folder.entry) request bytes.now)
        (K.seen sink.old) (K.seen sink.new) result }
{
    if watch.wants_last() {
        if let Some(last) = last_of(alloc, bytes, request.to) {
            watch.end_at(last);
        }
    }
    let mut kinds = Vec::new(alloc);
    let levels = send_levels(rt, judge, alloc, bytes, request, &mut kinds, watch, sink)?;
    let end = end_of(alloc, folder, request, levels, kinds.as_slice())?;
    end.send(sink)
}
