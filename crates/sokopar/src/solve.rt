ghost use Rattle.std.specs.Prelude.{◌≡◌, ◌++◌, ◌≤◌, OnOk, IfOk, Some, length};
ghost use Rattle.sokopar.specs.OneReport.{IsOnlySolveReport};
ghost use Rattle.sokopar.specs.Report.{too_many_boxes};
ghost use Rattle.sokopar.specs.Solving.{answer_report, IsSolveOf};
ghost use Rattle.sokopar.specs.inside.Parts.{answer_words};
ghost use Rattle.crew.specs.Configured.{IsWithinLimits};

use crate::laws::one_report;
use crate::report::Report;
use crate::show::lawful_level;
use crew::{Config, Gate};
use grid::Level;
use judging::{Counts, NoneWithin, Number, Text};
use solo::{Answer, SolveFault};
use std::alloc::{AllocError, Global};
use std::fmt;
use std::sync::{Arc, Wait};
use std::thread::Threads;
use xsb::MAX_FILE;

/// The report that the level has more than [`MAX_BOXES`](grid::MAX_BOXES) boxes.
fn too_many_boxes(alloc: Global) -> Result<Report, AllocError>
    ensures { IfOk result (λ report. report ≡ too_many_boxes) }
{
    let mut text = Text::new(alloc);
    text.put(b"too many boxes\n")?;
    Ok(Report::new(text, 1))
}

/// An answer in words, under a cap of pushes and a limit of positions.
#[derive(Drop)]
struct AnswerWords<'a>(&'a Answer, Option<u32>, u32);

impl fmt::Display for AnswerWords<'_> {
    ghost output = { λ it. Some (answer_words it.1 it.2 it.0.now) };

    fn fmt<W: fmt::Write>(&self, f: &mut fmt::Formatter<W>) -> fmt::Result {
        match self.0 {
            Answer::Solved {
                moves,
                pushes,
                positions,
            } => {
                let pushes = *pushes as usize;
                let moves = moves.len();
                let positions = Number(*positions as usize);
                write!(
                    f,
                    "solved {}, {positions} positions",
                    Counts { pushes, moves }
                )
            }
            Answer::Unsolvable { positions } => {
                write!(f, "unsolvable, {} positions", Number(*positions as usize))
            }
            Answer::NoneWithin { positions } => {
                let positions = Number(*positions as usize);
                write!(f, "{}, {positions} positions", NoneWithin(self.1))
            }
            Answer::Limit => write!(f, "limit {} reached", Number(self.2 as usize)),
        }
    }
}

/// Appends an answer in words, under a cap of pushes and a limit of positions.
fn put_answer(
    text: &mut Text,
    answer: &Answer,
    cap: Option<u32>,
    limit: u32,
) -> Result<(), AllocError>
    ensures { OnOk result (text.new ≡ text.old ++ answer_words cap limit answer.now) }
{
    text.show(&AnswerWords(answer, cap, limit))
}

/// The report of an answer under a cap of pushes and a limit of positions.
fn answer_report(
    alloc: Global,
    answer: &Answer,
    cap: Option<u32>,
    limit: u32,
) -> Result<Report, AllocError>
    ensures { IfOk result (λ report. report ≡ answer_report cap limit answer.now) }
{
    let mut text = Text::new(alloc);
    put_answer(&mut text, answer, cap, limit)?;
    text.put(b"\n")?;
    let status = match answer {
        Answer::Solved { moves, .. } => {
            text.put_letters(moves)?;
            text.put(b"\n")?;
            0
        }
        Answer::Unsolvable { .. } | Answer::NoneWithin { .. } => 1,
        Answer::Limit => 4,
    };
    Ok(Report::new(text, status))
}

/// The report of solving a level by a configuration, with a gate for its workers.
fn solve_level<R: Threads + Wait + Sync, G: Gate + Sync>(
    rt: &R,
    alloc: Global,
    level: &Level,
    config: Config,
    gate: &G,
) -> Result<Report, AllocError>
    requires limits { IsWithinLimits config }
    ensures { IfOk result (λ report. IsSolveOf config.cap config.limit level.now report) }
{
    let level = Arc::new(alloc, level.copy()?)?;
    match crew::solve(rt, alloc, &level, config, gate) {
        Ok(answer) => answer_report(alloc, &answer, config.cap, config.limit),
        Err(SolveFault::TooManyBoxes) => too_many_boxes(alloc),
        Err(SolveFault::OutOfMemory) => Err(AllocError),
        Err(SolveFault::BadConfig) => unreachable!(),
    }
}

/// The report of solving level N of a collection by a configuration, with a gate for its workers: the only report under
/// its cap and its limit.
pub(crate) fn solve_in<R: Threads + Wait + Sync, G: Gate + Sync>(
    rt: &R,
    alloc: Global,
    bytes: &[u8],
    number: u32,
    config: Config,
    gate: &G,
) -> Result<Report, AllocError>
    requires number { 1 ≤ number }
    requires limits { IsWithinLimits config }
    requires bound { length bytes.now ≤ MAX_FILE }
    ensures { IfOk result (λ report. IsOnlySolveReport config.cap config.limit number bytes.now report) }
{
    one_report();
    match lawful_level(alloc, bytes, number)? {
        Ok(level) => solve_level(rt, alloc, &level, config, gate),
        Err(report) => Ok(report),
    }
}
