ghost use Rattle.std.specs.Prelude.{◌≡◌, ◌≤◌, length, IfOk};
ghost use Rattle.sokopar.specs.Report.{no_level, fault_report, IsShown, IsShowReport};
ghost use Rattle.sokopar.specs.inside.Parts.{HasChosen};

use crate::check::put_fault;
use crate::listing::level_of;
use crate::report::Report;
use grid::{Level, LevelFault};
use judging::Text;
use std::alloc::{AllocError, Global};
use xsb::MAX_FILE;

/// The report that there is no level N.
pub(crate) fn no_level(alloc: Global, number: u32) -> Result<Report, AllocError>
    ensures { IfOk result (λ report. report ≡ no_level number) }
{
    let mut text = Text::new(alloc);
    text.put(b"no level ")?;
    text.put_number(number as usize)?;
    text.put(b"\n")?;
    Ok(Report::new(text, 1))
}

/// The report that level N has a fault.
pub(crate) fn fault_report(alloc: Global, fault: LevelFault) -> Result<Report, AllocError>
    ensures { IfOk result (λ report. report ≡ fault_report fault) }
{
    let mut text = Text::new(alloc);
    put_fault(&mut text, fault)?;
    text.put(b"\n")?;
    Ok(Report::new(text, 1))
}

/// Level N of a collection if it is lawful; else the report that there is none, or of its fault.
pub(crate) fn lawful_level(
    alloc: Global,
    bytes: &[u8],
    number: u32,
) -> Result<Result<Level, Report>, AllocError>
    requires number { 1 ≤ number }
    requires bound { length bytes.now ≤ MAX_FILE }
    ensures { IfOk result (λ found. HasChosen bytes.now number found) }
{
    match level_of(alloc, bytes, number)? {
        None => Ok(Err(no_level(alloc, number)?)),
        Some(Err(fault)) => Ok(Err(fault_report(alloc, fault)?)),
        Some(Ok(level)) => Ok(Ok(level)),
    }
}

/// The report of showing a level.
fn shown(alloc: Global, level: &Level) -> Result<Report, AllocError>
    ensures { IfOk result (λ report. IsShown level.now report) }
{
    let mut text = Text::new(alloc);
    text.put_rows(level)?;
    Ok(Report::new(text, 0))
}

/// The report of showing level N of a collection.
#[tactic(auto, using(crate::proofs::Reporting::on_level))]
pub(crate) fn show_in(alloc: Global, bytes: &[u8], number: u32) -> Result<Report, AllocError>
    requires number { 1 ≤ number }
    requires bound { length bytes.now ≤ MAX_FILE }
    ensures { IfOk result (λ report. IsShowReport number bytes.now report) }
{
    match lawful_level(alloc, bytes, number)? {
        Ok(level) => shown(alloc, &level),
        Err(report) => Ok(report),
    }
}
