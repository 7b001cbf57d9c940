//! An example for users of the library: reads a collection from standard input, solves each of its levels on one
//! thread, and prints a line for each: the pushes of its least solution and the solution, or why there is none.
//!
//! ```text
//! rt try < ../../levels/first-steps.xsb
//! ```
//!
//! `rt try` runs it unproved after some minutes. `rt run` first proves it and the crates below, which takes half an
//! hour.
#![tactic(auto)]

ghost use Rattle.std.specs.Prelude.{IfOk, None};
ghost use Rattle.std.specs.Arc.{arc_value};
ghost use Rattle.successors.specs.Capping.{capped};
ghost use Rattle.solo.specs.Answers.{IsAnswer};

use grid::Level;
use solo::{Answer, SolveFault, solve_alone};
use std::alloc::Global;
use std::io;
use std::io::Read;
use std::sync::Arc;
use xsb::Entry;

/// A search that needs more positions than this answers [`Answer::Limit`]. Each takes some 50 to 150 bytes.
const LIMIT: u32 = 1_000_000;

/// All bytes of standard input.
fn read_input<R: Input>(rt: &R, alloc: Global) -> io::Result<Vec<u8>> {
    let mut bytes = Vec::new(alloc);
    rt.reader().read_to_end(&mut bytes)?;
    Ok(bytes)
}

/// The answer for a level, by the contract of `solve_alone`.
fn answer_of(alloc: Global, level: &Arc<Level>) -> Result<Answer, SolveFault>
    ensures { IfOk result (λ answer. IsAnswer (capped (arc_value level.now) None) LIMIT answer) }
{
    solve_alone(alloc, level, None, LIMIT)
}

/// Prints an answer in one line.
fn print_answer<R: Print>(rt: &R, alloc: Global, answer: &Answer) -> anyhow::Result<()> {
    match answer {
        Answer::Solved { moves, pushes, .. } => {
            let mut text = Vec::new(alloc);
            lurd::write(moves, &mut text)?;
            println!(rt; "{pushes} pushes: {}", String::from_utf8(text)?)?;
        }
        Answer::Limit => println!(rt; "more than {LIMIT} positions")?,
        // without a cap, no number of pushes suffices
        Answer::Unsolvable { .. } | Answer::NoneWithin { .. } => println!(rt; "unsolvable")?,
    }
    Ok(())
}

/// Solves the level of an entry, or prints the first fault of its board.
fn solve_entry<R: Print>(rt: &R, alloc: Global, entry: Entry) -> anyhow::Result<()> {
    let Entry { board, .. } = entry;
    let level = match board {
        Ok(level) => Arc::new(alloc, level)?,
        Err(fault) => {
            println!(rt; "no level: {fault}")?;
            return Ok(());
        }
    };
    let answer = answer_of(alloc, &level)?;
    print_answer(rt, alloc, &answer)
}

fn main(rt: HostRuntime) -> anyhow::Result<()> {
    let alloc = rt.alloc();
    let bytes = read_input(&rt, alloc)?;
    for entry in xsb::read(alloc, bytes.as_slice())? {
        solve_entry(&rt, alloc, entry)?;
    }
    Ok(())
}
