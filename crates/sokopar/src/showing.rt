//! Shows the levels of a part of a collection, so that they can be read again.
ghost use Rattle.std.specs.Prelude.{◌≡◌, ◌≤◌, ◌==◌, ◌++◌, ◌∷◌, ◌&&◌, ◌||◌, [], false, not, nat_le, Err, is_ok, cond, codes, flat_map};
ghost use Rattle.std.specs.Prelude.{length, IfOk, OnOk};
ghost use Rattle.std.specs.List.{list_any};
ghost use Rattle.judging.specs.inside.Entries.{entry_listed};
ghost use Rattle.sokopar.specs.Entries.{listed_of};
ghost use Rattle.sokopar.specs.Showing.{IsRangeReport, has_walls, name_line, shown_level, shown_rows};

use crate::check::{put_fault, put_name, put_place};
use crate::report::Report;
use crate::show::no_level;
use grid::{Level, LevelFault};
use judging::Text;
use std::alloc::{AllocError, Global};
use xsb::{BoardEntry, Collection, Entry, MAX_FILE};

/// Whether each line of some bytes has a wall.
fn has_walls(bytes: &[u8]) -> bool
    ensures { result ≡ has_walls false bytes.now }
{
    let mut rest = bytes;
    let mut wall = false;
    while let [byte, others @ ..] = rest {
        if *byte == b'\n' {
            if !wall {
                return false;
            }
            wall = false;
        } else {
            wall = wall || *byte == b'#';
        }
        rest = others;
    }
    true
}

/// Appends a byte of rows that are written in one line.
fn put_joined_byte(text: &mut Text, byte: u8) -> Result<(), AllocError>
    ensures { OnOk result (text.new ≡ text.old ++ cond (byte == 10) (codes " |") (byte ∷ [])) }
{
    if byte == b'\n' {
        text.put(b" |")
    } else {
        text.put(&[byte])
    }
}

/// Appends rows in one line.
fn put_joined(text: &mut Text, rows: &[u8]) -> Result<(), AllocError>
    ensures { OnOk result (text.new ≡ text.old ++
        flat_map (λ b. cond (b == 10) (codes " |") (b ∷ [])) rows.now) }
{
    for byte in rows {
        put_joined_byte(text, *byte)?;
    }
    Ok(())
}

/// Appends the rows of a level.
fn put_rows(alloc: Global, text: &mut Text, level: &Level) -> Result<(), AllocError>
    ensures { OnOk result (text.new ≡ text.old ++ shown_rows level.now) }
{
    let mut rows = Text::new(alloc);
    rows.put_rows(level)?;
    if has_walls(rows.as_slice()) {
        return text.put(rows.as_slice());
    }
    put_joined(text, rows.as_slice())?;
    text.put(b"\n")
}

/// Whether a name has a carriage return.
fn has_return(name: &[u8]) -> bool
    ensures { result ≡ list_any (λ b. b == 13) name.now }
{
    name.iter().any(|byte| *byte == b'\r')
}

/// What keeps a carriage return at the end of a name.
fn end_of(name: &[u8]) -> &'static [u8]
    ensures { result.now ≡ cond (list_any (λ b. b == 13) name.now) (codes " ") (codes "") }
{
    if has_return(name) { b" " } else { b"" }
}

/// Appends a name as a line.
fn put_name_line(text: &mut Text, name: &[u8]) -> Result<(), AllocError>
    ensures { OnOk result (text.new ≡ text.old ++ name_line name.now) }
{
    text.put(b";")?;
    put_name(text, name)?;
    text.put(end_of(name))?;
    text.put(b"\n")
}

/// Appends a faulty level as a comment.
fn put_faulty(
    text: &mut Text,
    number: usize,
    entry: &Entry,
    fault: LevelFault,
) -> Result<(), AllocError>
    ensures { OnOk result (text.new ≡ text.old ++ shown_level (Err fault) number (record {
      name = entry.now.name.items;
      first_line = entry.now.first_line;
      board = Err fault;
    })) }
{
    text.put(b"; ")?;
    put_place(text, number, entry.first_line)?;
    put_fault(text, fault)?;
    put_name(text, entry.name.as_slice())?;
    text.put(b"\n")
}

/// Appends a level.
fn put_entry(alloc: Global, text: &mut Text, number: usize, entry: &Entry) -> Result<(), AllocError>
    ensures { OnOk result (text.new ≡ text.old ++
        shown_level entry.now.board number (entry_listed entry.now)) }
{
    match &entry.board {
        Ok(level) => {
            put_name_line(text, entry.name.as_slice())?;
            put_rows(alloc, text, level)?;
            text.put(b"\n")
        }
        Err(fault) => put_faulty(text, number, entry, *fault),
    }
}

/// Appends a level if its number is in a range.
fn put_in_range(
    alloc: Global,
    text: &mut Text,
    from: u32,
    to: u32,
    number: u32,
    board: BoardEntry,
) -> Result<(), AllocError>
    ensures { OnOk result (text.new ≡ text.old ++
        cond (nat_le from number && nat_le number to) (shown_level (listed_of board).board number (listed_of board)) []) }
{
    if !is_in_range(from, to, number) {
        return Ok(());
    }
    let entry = board.into_entry(alloc)?;
    put_entry(alloc, text, number as usize, &entry)
}

/// Whether a number is in a range, both ends included.
fn is_in_range(from: u32, to: u32, number: u32) -> bool
    ensures { result ≡ (nat_le from number && nat_le number to) }
{
    from <= number && number <= to
}

/// Whether a level is in a range and faulty, or one was before.
fn faulty_with(faulty: bool, from: u32, to: u32, number: u32, board: &BoardEntry) -> bool
    ensures { result ≡ (faulty || ((nat_le from number && nat_le number to) && not (is_ok (listed_of board.now).board))) }
{
    faulty || (is_in_range(from, to, number) && board.board.is_err())
}

/// The report of showing the levels of a collection with numbers in a range.
pub(crate) fn show_range(
    alloc: Global,
    bytes: &[u8],
    from: u32,
    to: u32,
) -> Result<Report, AllocError>
    requires { length bytes.now ≤ MAX_FILE }
    ensures { IfOk result (λ report. IsRangeReport from to bytes.now report) }
{
    let Ok(mut collection) = Collection::of(bytes) else {
        unreachable!();
    };
    let mut text = Text::new(alloc);
    let mut faulty = false;
    let mut number: u32 = 0;
    'boards: loop {
        let Some(board) = collection.next_board(alloc)? else {
            break;
        };
        number += 1;
        faulty = faulty_with(faulty, from, to, number, &board);
        put_in_range(alloc, &mut text, from, to, number, board)?;
    }
    if number < from {
        return no_level(alloc, from);
    }
    Ok(Report::new(text, u8::from(faulty)))
}
