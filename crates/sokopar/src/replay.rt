ghost use Rattle.std.specs.Prelude.{◌≡◌, Ok, Some, ◌≢◌, ◌++◌, ◌⊎◌, ◌≤◌, ℕ, List, length, Option, OnOk, IfOk, IfErr};
ghost use Rattle.sokopar.specs.Report.{text_fault_report, text_fault_words, verdict_report};
ghost use Rattle.sokopar.specs.Report.{verdict_status, verdict_words, IsReplayOf, IsReplayReport};
ghost use Rattle.sokopar.specs.Runs.{ReadsIfSome, ReadsWhole, Stops};
ghost use Rattle.grid.specs.Board.{Board};
ghost use Rattle.sokopar.specs.Listing.{IsLevelAt};

use crate::fault::RunFault;
use crate::reads::read_whole;
use crate::report::Report;
use crate::show::lawful_level;
use crate::source::Source;
use grid::Level;
use judging::{Text, TextFaultWords, VerdictWords};
use lurd::{LurdFault, Verdict, parse, replay};
use std::alloc::{AllocError, Global};
use xsb::MAX_FILE;

/// Appends a verdict in words.
fn put_verdict(text: &mut Text, verdict: Verdict) -> Result<(), AllocError>
    ensures { OnOk result (text.new ≡ text.old ++ verdict_words verdict) }
{
    text.show(&VerdictWords(verdict))
}

/// The exit status of a verdict.
fn status_of(verdict: Verdict) -> u8
    ensures { result ≡ verdict_status verdict }
{
    match verdict {
        Verdict::Solved { .. } => 0,
        _ => 1,
    }
}

/// The report of a verdict.
fn verdict_report(alloc: Global, verdict: Verdict) -> Result<Report, AllocError>
    ensures { IfOk result (λ report. report ≡ verdict_report verdict) }
{
    let mut text = Text::new(alloc);
    put_verdict(&mut text, verdict)?;
    text.put(b"\n")?;
    Ok(Report::new(text, status_of(verdict)))
}

/// Appends a fault in the text of a solution in words.
fn put_text_fault(text: &mut Text, fault: LurdFault) -> Result<(), AllocError>
    ensures { OnOk result (text.new ≡ text.old ++ text_fault_words fault) }
{
    text.show(&TextFaultWords(fault))
}

/// The report of a fault in the text of a solution. Fails if the fault is out of memory.
fn text_fault_report(alloc: Global, fault: LurdFault) -> Result<Report, AllocError>
    ensures report { IfOk result (λ report. report ≡ text_fault_report fault) }
    ensures memory { OnOk result (fault ≢ LurdFault.OutOfMemory) }
{
    if matches!(fault, LurdFault::OutOfMemory) {
        return Err(AllocError);
    }
    let mut text = Text::new(alloc);
    put_text_fault(&mut text, fault)?;
    text.put(b"\n")?;
    Ok(Report::new(text, 1))
}

/// The report of replaying a text on a level.
fn replay_report(alloc: Global, level: &Level, solution: &[u8]) -> Result<Report, AllocError>
    ensures { IfOk result (λ report. IsReplayOf level.now solution.now report) }
{
    match parse(alloc, solution) {
        Ok(moves) => verdict_report(alloc, replay(alloc, level, &moves)?),
        Err(fault) => text_fault_report(alloc, fault),
    }
}

/// The report of replaying a solution on a lawful level. It reads the solution to its end.
#[tactic(auto, using(crate::proofs::Reading::stops_after))]
fn replay_level<T: Source>(
    alloc: Global,
    level: &Level,
    solution: &mut T,
) -> Result<Report, RunFault>
    ensures ok { IfOk result (λ report. (text : List ℕ) ×
        ReadsWhole (T.seen solution.old) (T.seen solution.new) text × IsReplayOf level.now text report) }
    ensures err { IfErr result (Stops (T.seen solution.old) (T.seen solution.new)) }
{
    let text = read_whole(alloc, solution)?;
    Ok(replay_report(alloc, level, text.as_slice())?)
}

/// The report of replaying on level N of a collection. It reads the solution to its end if the level is lawful, and not
/// otherwise.
#[tactic(auto, using(crate::proofs::Reporting::on_text))]
pub(crate) fn replay_in<T: Source>(
    alloc: Global,
    bytes: &[u8],
    number: u32,
    solution: &mut T,
) -> Result<Report, RunFault>
    requires number { 1 ≤ number }
    requires bound { length bytes.now ≤ MAX_FILE }
    ensures ok { IfOk result (λ report. (text : Option (List ℕ)) ×
        ReadsIfSome (T.seen solution.old) (T.seen solution.new) text
        × IsReplayReport number bytes.now text report) }
    ensures err { IfErr result (λ fault. ((fault ≡ RunFault.OutOfMemory) × (T.seen solution.new ≡ T.seen solution.old))
        ⊎ ((board : Board) × IsLevelAt bytes.now number (Some (Ok board)) ×
        Stops (T.seen solution.old) (T.seen solution.new) fault)) }
{
    match lawful_level(alloc, bytes, number)? {
        Ok(level) => replay_level(alloc, &level, solution),
        Err(report) => Ok(report),
    }
}
