//! The row of a level in a table.
ghost use Rattle.std.specs.Prelude.{◌≡◌, ◌==◌, ◌++◌, [], Some, OnOk, Result, decimal, flat_map};
ghost use Rattle.std.specs.List.{list_any};
ghost use Rattle.judging.specs.Kinds.{found_of, kind_of, kind_word, proved_of};
ghost use Rattle.judging.specs.Table.{boxes_of, cell_bytes, counts_cells, letters_between, limit_cell, name_cell};
ghost use Rattle.judging.specs.Table.{number_cell};
ghost use Rattle.judging.specs.Table.{quote_of, row, word_cell};
ghost use Rattle.judging.specs.inside.Entries.{entry_listed};

use crate::judgement::{Counts, Judgement, LimitKind, Settings};
use crate::lines::put_letters_between;
use crate::text::Text;
use grid::{Level, LevelFault};
use std::alloc::AllocError;
use xsb::Entry;

/// Appends a tab and a number; only the tab if there is none.
fn put_number(text: &mut Text, number: Option<usize>) -> Result<(), AllocError>
    ensures { OnOk result (text.new ≡ text.old ++ number_cell number) }
{
    text.put(b"\t")?;
    match number {
        Some(number) => text.put_number(number),
        None => Ok(()),
    }
}

/// The number of boxes of a lawful level.
fn boxes_of(board: &Result<Level, LevelFault>) -> Option<usize>
    ensures { result ≡ boxes_of board.now }
{
    match board {
        Ok(level) => Some(level.boxes()),
        Err(_) => None,
    }
}

/// Appends the number of a level, its first line and its number of boxes.
fn put_place(text: &mut Text, number: u32, entry: &Entry) -> Result<(), AllocError>
    ensures { OnOk result (text.new ≡ text.old ++ decimal number ++ number_cell (Some (entry_listed entry.now).first_line) ++
        number_cell (boxes_of (entry_listed entry.now).board)) }
{
    text.put_number(number as usize)?;
    put_number(text, Some(entry.first_line as usize))?;
    put_number(text, boxes_of(&entry.board))
}

/// Appends the verdict, and what is proved of the best numbers.
fn put_verdict(text: &mut Text, judgement: &Judgement) -> Result<(), AllocError>
    ensures { OnOk result (text.new ≡ text.old ++
        word_cell (kind_word (kind_of judgement.now)) ++ word_cell (proved_of judgement.now)) }
{
    text.put(b"\t")?;
    text.put(judgement.kind().word())?;
    text.put(b"\t")?;
    text.put(judgement.proved())
}

/// Appends the numbers of pushes and moves of a solution, if there is one.
fn put_counts(text: &mut Text, counts: Option<Counts>) -> Result<(), AllocError>
    ensures { OnOk result (text.new ≡ text.old ++ counts_cells counts) }
{
    match counts {
        Some(counts) => {
            put_number(text, Some(counts.pushes))?;
            put_number(text, Some(counts.moves))
        }
        None => text.put(b"\t\t"),
    }
}

/// Appends the limit at which a search ended, if it did.
fn put_limit(
    text: &mut Text,
    settings: Settings,
    limit: Option<LimitKind>,
) -> Result<(), AllocError>
    ensures { OnOk result (text.new ≡ text.old ++ limit_cell settings limit) }
{
    match limit {
        None => put_number(text, None),
        Some(LimitKind::Positions) => put_number(text, Some(settings.limit as usize)),
        Some(LimitKind::Seconds) => {
            put_number(text, settings.seconds.map(|most| most as usize))?;
            text.put(b" s")
        }
    }
}

/// Appends a byte of a name: a space for a tab, and two quotes for a quote.
fn put_byte(text: &mut Text, byte: u8) -> Result<(), AllocError>
    ensures { OnOk result (text.new ≡ text.old ++ cell_bytes byte) }
{
    match byte {
        b'\t' => text.put(b" "),
        b'"' => text.put(b"\"\""),
        _ => text.put(&[byte]),
    }
}

/// Appends the bytes of a name.
fn put_bytes(text: &mut Text, name: &[u8]) -> Result<(), AllocError>
    ensures { OnOk result (text.new ≡ text.old ++ flat_map cell_bytes name.now) }
{
    for byte in name {
        put_byte(text, *byte)?;
    }
    Ok(())
}

/// Whether a name has a quote.
fn has_quote(name: &[u8]) -> bool
    ensures { result ≡ list_any (λ b. b == 34) name.now }
{
    name.iter().any(|byte| *byte == b'"')
}

/// The quote around a name that has one.
fn quote_of(name: &[u8]) -> &'static [u8]
    ensures { result.now ≡ quote_of name.now }
{
    if has_quote(name) { b"\"" } else { b"" }
}

/// Appends a name, quoted if it has a quote.
fn put_name(text: &mut Text, name: &[u8]) -> Result<(), AllocError>
    ensures { OnOk result (text.new ≡ text.old ++ name_cell name.now) }
{
    text.put(b"\t")?;
    text.put(quote_of(name))?;
    put_bytes(text, name)?;
    text.put(quote_of(name))
}

/// Appends the letters of the solution that was found.
fn put_solution(text: &mut Text, judgement: &Judgement) -> Result<(), AllocError>
    ensures { OnOk result (text.new ≡ text.old ++ word_cell (letters_between [] [] (found_of judgement.now))) }
{
    text.put(b"\t")?;
    put_letters_between(text, b"", b"", judgement)
}

/// Appends the row of a level.
pub(crate) fn put_row(
    text: &mut Text,
    number: u32,
    entry: &Entry,
    settings: Settings,
    judgement: &Judgement,
) -> Result<(), AllocError>
    ensures { OnOk result (text.new ≡ text.old ++ row settings number (entry_listed entry.now) judgement.now) }
{
    put_place(text, number, entry)?;
    put_verdict(text, judgement)?;
    put_counts(text, judgement.given())?;
    put_counts(text, judgement.best())?;
    put_number(text, judgement.bound())?;
    put_limit(text, settings, judgement.limit())?;
    put_name(text, entry.name.as_slice())?;
    put_solution(text, judgement)?;
    text.put(b"\n")
}
