ghost use Rattle.std.specs.Prelude.{◌≡◌, ◌+◌, ◌≤◌, ◌++◌, Ok, cond, length, codes, decimal, OnOk, IfOk};
ghost use Rattle.sokopar.specs.Entries.{listed_of};
ghost use Rattle.sokopar.specs.Report.{fault_words, judged_words, named, line, check_line, IsCheckReport};
ghost use Rattle.sokopar.specs.inside.Parts.{is_good};

use crate::report::Report;
use grid::{Board, LevelFault};
use judging::{FaultWords, Text};
use std::alloc::{AllocError, Global};
use xsb::{BoardEntry, Collection, MAX_FILE};

/// Appends the words of a fault.
pub(crate) fn put_fault(text: &mut Text, fault: LevelFault) -> Result<(), AllocError>
    ensures { OnOk result (text.new ≡ text.old ++ fault_words fault) }
{
    text.show(&FaultWords(fault))
}

/// Appends the words of a lawful level, given its board.
fn put_level(text: &mut Text, board: &Board) -> Result<(), AllocError>
    ensures { OnOk result (text.new ≡ text.old ++ judged_words (Ok board.now)) }
{
    text.put(b"ok ")?;
    text.put_number(board.rows())?;
    text.put(b"x")?;
    text.put_number(board.cols())?;
    text.put(b" ")?;
    text.put_number(board.boxes())?;
    text.put(b" boxes")
}

/// Appends a name after a space; nothing for the empty name.
pub(crate) fn put_name(text: &mut Text, name: &[u8]) -> Result<(), AllocError>
    ensures { OnOk result (text.new ≡ text.old ++ named name.now) }
{
    if name.is_empty() {
        return Ok(());
    }
    text.put(b" ")?;
    text.put(name)
}

/// Appends the number of a level and that of its first line.
pub(crate) fn put_place(text: &mut Text, number: usize, first_line: u32) -> Result<(), AllocError>
    ensures { OnOk result (text.new ≡ text.old ++ decimal number ++ codes " line " ++ decimal first_line ++ codes " ") }
{
    text.put_number(number)?;
    text.put(b" line ")?;
    text.put_number(first_line as usize)?;
    text.put(b" ")
}

/// Appends the line of a level.
pub(crate) fn put_line(text: &mut Text, number: usize, entry: &BoardEntry) -> Result<(), AllocError>
    ensures { OnOk result (text.new ≡ text.old ++ check_line number (listed_of entry.now)) }
{
    put_place(text, number, entry.first_line)?;
    match &entry.board {
        Ok(board) => put_level(text, board)?,
        Err(fault) => put_fault(text, *fault)?,
    }
    put_name(text, entry.name.as_slice())?;
    text.put(b"\n")
}

/// The number of lawful levels, given that of the levels before this one.
pub(crate) fn good_with(good: usize, entry: &BoardEntry) -> usize
    requires { good ≤ MAX_FILE }
    ensures { result ≡ cond (is_good (listed_of entry.now)) (good + 1) good }
{
    if entry.board.is_ok() { good + 1 } else { good }
}

/// Appends the totals.
pub(crate) fn put_counts(text: &mut Text, levels: usize, good: usize) -> Result<(), AllocError>
    ensures { OnOk result
        (text.new ≡ text.old ++ (decimal levels ++ codes " levels, " ++ decimal good ++ codes " good")) }
{
    text.put_number(levels)?;
    text.put(b" levels, ")?;
    text.put_number(good)?;
    text.put(b" good")
}

/// Appends the line of totals.
pub(crate) fn put_totals(text: &mut Text, levels: usize, good: usize) -> Result<(), AllocError>
    ensures { OnOk result
        (text.new ≡ text.old ++ line (decimal levels ++ codes " levels, " ++ decimal good ++ codes " good")) }
{
    put_counts(text, levels, good)?;
    text.put(b"\n")
}

/// The report of checking a collection. It makes the line of a board when it reads the board, and then drops the board.
pub(crate) fn check_report(alloc: Global, bytes: &[u8]) -> Result<Report, AllocError>
    requires { length bytes.now ≤ MAX_FILE }
    ensures { IfOk result (λ report. IsCheckReport bytes.now report) }
{
    let Ok(mut collection) = Collection::of(bytes) else {
        unreachable!();
    };
    let mut text = Text::new(alloc);
    let mut levels = 0;
    let mut good = 0;
    'boards: loop {
        let Some(entry) = collection.next_board(alloc)? else {
            break;
        };
        levels += 1;
        good = good_with(good, &entry);
        put_line(&mut text, levels, &entry)?;
    }
    put_totals(&mut text, levels, good)?;
    let status = if good == levels { 0 } else { 1 };
    Ok(Report::new(text, status))
}
