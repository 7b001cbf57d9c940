ghost use Rattle.std.specs.Prelude.{false};
ghost use Rattle.sokopar.specs.Explaining.{IsExplainReport};
ghost use Rattle.sokopar.specs.Runs.{Reads, Runs};

use crate::explain::explain_in;
use crate::fault::RunFault;
use crate::reads::read_whole;
use crate::sink::Sink;
use crate::source::Source;
use std::alloc::Global;

/// Explains the levels of a collection, or the one with this number, counted from 1: writes where and why each is
/// faulty, with all its faults, which lines with a wall are no rows, and which boxes make a lawful level unsolvable from
/// the start. Returns the exit status: 0 if each of these levels is lawful and nothing was found against it, otherwise
/// 1. The faults are those of [`run_check`](crate::run_check).
#[tactic(auto, using(crate::proofs::Reading::stops_after))]
pub fn run_explain<S: Source, K: Sink>(
    alloc: Global,
    source: &mut S,
    number: Option<u32>,
    sink: &mut K,
) -> Result<u8, RunFault>
    ensures { Runs (Reads (S.seen source.old) (S.seen source.new)) false (IsExplainReport number)
        (K.seen sink.old) (K.seen sink.new) result }
{
    let bytes = read_whole(alloc, source)?;
    let report = explain_in(alloc, bytes.as_slice(), number)?;
    report.send(sink)
}
