//! The sentences of remarks, and the lines of broken rows.
ghost use Rattle.std.specs.Prelude.{◌≡◌, ◌+◌, ◌/◌, ◌%◌, ◌≤◌, ◌++◌, [], OnOk, cond, codes, decimal, flat_map, slice_get};
ghost use Rattle.std.specs.Prelude.{length, nat_lt, true};
ghost use Rattle.std.specs.Prelude.{encode_utf8};
ghost use Rattle.std.specs.Fmt.{digit_glyph};
ghost use Rattle.sokopar.specs.Explaining.{broken_line, byte_words, cause_words, character_words, excess_words};
ghost use Rattle.sokopar.specs.Explaining.{flaw_words, more_words};
ghost use Rattle.sokopar.specs.Explaining.{place_words, remark_words, sentence, sentence_at, sentences};
ghost use Rattle.sokopar.specs.inside.Explaining.{code_digits, foreign_line, plight_words};

use crate::remark::{Plight, Remark};
use grid::{MAX_COLS, MAX_ROWS, Square};
use judging::Text;
use std::alloc::AllocError;
use xsb::{BoardRows, BrokenRow, Cause, Excess, Flaw, RowPlace};

/// The code of the no-break space.
const NO_BREAK_SPACE: u32 = 0xA0;

/// The most squares that sentences of a kind list.
pub(crate) const MOST_PLACES: usize = 20;

/// Appends a sentence.
#[tactic(auto, unfolding(crate::specs::Explaining::sentence))]
fn put_sentence(text: &mut Text, words: &[u8]) -> Result<(), AllocError>
    ensures { OnOk result (text.new ≡ text.old ++ sentence words.now) }
{
    text.put(b"  ")?;
    text.put(words)?;
    text.put(b"\n")
}

/// Appends the place of a row and a column, both counted from 1.
fn put_place(
    text: &mut Text,
    row: usize,
    column: usize,
    place: Option<RowPlace>,
) -> Result<(), AllocError>
    ensures { OnOk result (text.new ≡ text.old ++ place_words row column place) }
{
    let Some(place) = place else {
        return Ok(());
    };
    text.put(b"line ")?;
    text.put_number(place.line as usize)?;
    text.put(b", column ")?;
    text.put_number(column)?;
    if place.plain {
        return Ok(());
    }
    text.put(b" of row ")?;
    text.put_number(row)
}

/// Appends the beginning of a sentence about a place.
fn put_head(text: &mut Text, words: &[u8]) -> Result<(), AllocError>
    ensures { OnOk result (text.new ≡ text.old ++ codes "  " ++ words.now ++ codes " at ") }
{
    text.put(b"  ")?;
    text.put(words)?;
    text.put(b" at ")
}

/// The place of a row.
fn place_of(rows: &BoardRows, row: usize) -> Option<RowPlace>
    ensures { result ≡ slice_get rows.now.places.items row }
{
    rows.places.get(row).copied()
}

/// Appends where a square is.
#[tactic(auto, unfolding(crate::specs::Explaining::sentence_at))]
fn put_sentence_at(
    text: &mut Text,
    words: &[u8],
    rows: &BoardRows,
    square: Square,
) -> Result<(), AllocError>
    requires { 1 ≤ rows.now.cols }
    ensures { OnOk result (text.new ≡ text.old ++ sentence_at words.now rows.now.cols rows.now.places.items square) }
{
    let row = square.0 as usize / rows.cols;
    let column = square.0 as usize % rows.cols;
    put_head(text, words)?;
    put_place(text, row + 1, column + 1, place_of(rows, row))?;
    text.put(b"\n")
}

/// Appends where each of some squares is.
fn put_each(
    text: &mut Text,
    words: &[u8],
    rows: &BoardRows,
    squares: &[Square],
) -> Result<(), AllocError>
    requires { 1 ≤ rows.now.cols }
    ensures { OnOk result
        (text.new ≡ text.old ++ flat_map (sentence_at words.now rows.now.cols rows.now.places.items) squares.now) }
{
    for square in squares {
        put_sentence_at(text, words, rows, *square)?;
    }
    Ok(())
}

/// Appends how many more squares there are.
fn put_more(text: &mut Text, count: usize) -> Result<(), AllocError>
    ensures { OnOk result (text.new ≡ text.old ++ more_words count) }
{
    if count == 0 {
        return Ok(());
    }
    text.put(b"  and ")?;
    text.put_number(count)?;
    text.put(b" more\n")
}

/// Appends where each of some squares is, up to [`MOST_PLACES`], and how many more there are.
#[tactic(auto, unfolding(crate::specs::Explaining::sentences))]
fn put_sentences(
    text: &mut Text,
    words: &[u8],
    rows: &BoardRows,
    squares: &[Square],
) -> Result<(), AllocError>
    requires { 1 ≤ rows.now.cols }
    ensures { OnOk result
        (text.new ≡ text.old ++ sentences words.now rows.now.cols rows.now.places.items squares.now) }
{
    let (listed, others) = squares.split_at(MOST_PLACES.min(squares.len()));
    put_each(text, words, rows, listed)?;
    put_more(text, others.len())
}

/// Appends where a board is too large.
pub(crate) fn put_excess(text: &mut Text, excess: Excess) -> Result<(), AllocError>
    ensures { OnOk result (text.new ≡ text.old ++ excess_words excess) }
{
    match excess {
        Excess::Rows(line) => put_tall(text, MAX_ROWS + 1, line),
        Excess::Columns(line) => put_wide(text, line),
    }
}

/// Appends the line of a row that is too many.
#[tactic(auto, unfolding(crate::specs::Explaining::sentence))]
fn put_tall(text: &mut Text, row: usize, line: u32) -> Result<(), AllocError>
    ensures { OnOk result (text.new ≡ text.old ++
        sentence (codes "row " ++ decimal row ++ codes " is at line " ++ decimal line)) }
{
    text.put(b"  ")?;
    text.put(b"row ")?;
    text.put_number(row)?;
    text.put(b" is at line ")?;
    text.put_number(line as usize)?;
    text.put(b"\n")
}

/// Appends the line of a row that is too long.
#[tactic(auto, unfolding(crate::specs::Explaining::sentence))]
fn put_wide(text: &mut Text, line: u32) -> Result<(), AllocError>
    ensures { OnOk result (text.new ≡ text.old ++ excess_words (Excess.Columns line)) }
{
    text.put(b"  ")?;
    text.put(b"line ")?;
    text.put_number(line as usize)?;
    text.put(b" has a row with more than ")?;
    text.put_number(MAX_COLS)?;
    text.put(b" columns\n")
}

/// Appends that some boxes are frozen.
fn put_frozen(text: &mut Text, rows: &BoardRows, squares: &[Square]) -> Result<(), AllocError>
    requires { 1 ≤ rows.now.cols }
    ensures { OnOk result (text.new ≡ text.old ++
        (sentence (codes "unsolvable: some of these boxes are frozen, not all of them on goals") ++
        sentences (codes "a box is") rows.now.cols rows.now.places.items squares.now)) }
{
    put_sentence(
        text,
        b"unsolvable: some of these boxes are frozen, not all of them on goals",
    )?;
    put_sentences(text, b"a box is", rows, squares)
}

/// Why the box or the goal on a square makes a level unsolvable.
fn plight_words(plight: Plight) -> &'static [u8]
    ensures { result.now ≡ plight_words plight }
{
    match plight {
        Plight::Unreached => b"unsolvable: the player never gets to the box",
        Plight::Unfilled => b"unsolvable: no box gets to the goal",
        Plight::OnDead => b"unsolvable: a box is on a dead square",
    }
}

/// Appends where the players are, and what to do about several.
fn put_players(text: &mut Text, rows: &BoardRows, squares: &[Square]) -> Result<(), AllocError>
    requires { 1 ≤ rows.now.cols }
    ensures { OnOk result (text.new ≡ text.old ++
        (sentences (codes "a player is") rows.now.cols rows.now.places.items squares.now ++
        cond (nat_lt 1 (length squares.now)) (sentence (codes
        "if these are two levels, put an empty line between them")) [])) }
{
    put_sentences(text, b"a player is", rows, squares)?;
    if squares.len() > 1 {
        return put_sentence(
            text,
            b"if these are two levels, put an empty line between them",
        );
    }
    Ok(())
}

/// Appends the sentences of a remark.
pub(crate) fn put_remark(
    text: &mut Text,
    rows: &BoardRows,
    remark: &Remark,
) -> Result<(), AllocError>
    requires { 1 ≤ rows.now.cols }
    ensures { OnOk result (text.new ≡ text.old ++ remark_words rows.now.cols rows.now.places.items remark.now) }
{
    match remark {
        Remark::Players(squares) => put_players(text, rows, squares),
        Remark::Unequal { boxes, goals } => {
            put_sentences(text, b"a box is", rows, boxes)?;
            put_sentences(text, b"a goal is", rows, goals)
        }
        Remark::Exit(square) => put_sentence_at(text, b"the player gets out", rows, *square),
        Remark::Solved => put_sentence(text, b"solved already"),
        Remark::Lost { plight, squares } => {
            put_sentences(text, plight_words(*plight), rows, squares)
        }
        Remark::Frozen(squares) => put_frozen(text, rows, squares),
        Remark::Stuck => put_sentence(text, b"unsolvable: the player cannot move"),
        Remark::Unmatched => {
            put_sentence(
                text,
                b"unsolvable: some boxes together get to fewer goals than they are",
            )
        }
        Remark::Sound => {
            put_sentence(
                text,
                b"nothing found; sokopar best FILE N decides whether it can be solved",
            )
        }
    }
}

/// Appends a byte in words.
fn put_byte(text: &mut Text, byte: u8) -> Result<(), AllocError>
    ensures { OnOk result (text.new ≡ text.old ++ byte_words byte) }
{
    if byte == b'\t' {
        return text.put(b"a tab");
    }
    if byte.is_ascii_graphic() {
        text.put(b"'")?;
        text.put(&[byte])?;
        return text.put(b"'");
    }
    text.put(b"value ")?;
    text.put_number(byte as usize)
}

/// The last hexadecimal digit of a number.
fn hex_digit(number: u32) -> u8
    ensures { result ≡ digit_glyph true (number % 16) }
{
    let digit = (number % 16) as u8;
    if digit < 10 {
        b'0' + digit
    } else {
        b'A' - 10 + digit
    }
}

/// Appends the code of a character in hexadecimal digits, four to six.
fn put_code(text: &mut Text, code: u32) -> Result<(), AllocError>
    ensures { OnOk result (text.new ≡ text.old ++ code_digits code) }
{
    if code > 0xF_FFFF {
        text.put(&[hex_digit(code / 0x10_0000)])?;
    }
    if code > 0xFFFF {
        text.put(&[hex_digit(code / 0x1_0000)])?;
    }
    text.put(&[
        hex_digit(code / 0x1000),
        hex_digit(code / 0x100),
        hex_digit(code / 0x10),
        hex_digit(code),
    ])
}

/// Appends a character beyond ASCII in words: itself and its code.
fn put_character(text: &mut Text, character: char) -> Result<(), AllocError>
    ensures { OnOk result (text.new ≡ text.old ++ character_words character) }
{
    let code = character as u32;
    if code == NO_BREAK_SPACE {
        return text.put(b"a no-break space");
    }
    let mut buffer = [0; 4];
    text.put(b"'")?;
    text.put(character.encode_utf8(&mut buffer).as_bytes())?;
    text.put(b"' (U+")?;
    put_code(text, code)?;
    text.put(b")")
}

/// Appends that a character is no cell.
fn put_other(text: &mut Text, character: char) -> Result<(), AllocError>
    ensures { OnOk result (text.new ≡ text.old ++
        (codes ", " ++ character_words character ++ codes ", is no cell")) }
{
    text.put(b", ")?;
    put_character(text, character)?;
    text.put(b", is no cell")
}

/// Appends why no item begins at a byte.
fn put_cause(text: &mut Text, cause: Cause) -> Result<(), AllocError>
    ensures { OnOk result (text.new ≡ text.old ++ cause_words cause) }
{
    match cause {
        Cause::Byte(byte) => {
            text.put(b", ")?;
            put_byte(text, byte)?;
            text.put(b", is no cell")
        }
        Cause::Character(character) => put_other(text, character),
        Cause::ZeroCount => text.put(b" begins a count of 0"),
        Cause::LongCount => text.put(b" begins a count of too many digits"),
        Cause::LooseCount => text.put(b" begins a count that no cell follows"),
    }
}

/// Appends why a line is no row line.
fn put_flaw(text: &mut Text, flaw: Flaw) -> Result<(), AllocError>
    ensures { OnOk result (text.new ≡ text.old ++ flaw_words flaw) }
{
    match flaw {
        Flaw::Breaks { byte, cause } => {
            text.put(b" has a wall and is no row: column ")?;
            text.put_number(byte)?;
            put_cause(text, cause)
        }
        Flaw::NoWall => text.put(b" has cells and no wall"),
    }
}

/// Appends the beginning of a sentence about a line.
fn put_line_number(text: &mut Text, line: u32) -> Result<(), AllocError>
    ensures { OnOk result (text.new ≡ text.old ++ (codes "line " ++ decimal line)) }
{
    text.put(b"line ")?;
    text.put_number(line as usize)
}

/// Appends what to do about a line that parts two boards.
fn put_parts(text: &mut Text, parts: bool) -> Result<(), AllocError>
    ensures { OnOk result (text.new ≡ text.old ++ cond parts (codes
        "; it cuts a level in two: remove it, or put an empty line before the next level") []) }
{
    if parts {
        return text.put(
            b"; it cuts a level in two: remove it, or put an empty line before the next level",
        );
    }
    Ok(())
}

/// Appends the line of a broken row.
#[tactic(auto, unfolding(crate::specs::Explaining::broken_line))]
pub(crate) fn put_broken(text: &mut Text, row: BrokenRow) -> Result<(), AllocError>
    ensures { OnOk result (text.new ≡ text.old ++ broken_line row) }
{
    put_line_number(text, row.line)?;
    put_flaw(text, row.flaw)?;
    put_parts(text, row.parts)?;
    text.put(b"\n")
}

/// Appends the line of a row of other characters.
pub(crate) fn put_foreign(text: &mut Text, line: u32) -> Result<(), AllocError>
    ensures { OnOk result (text.new ≡ text.old ++ foreign_line line) }
{
    put_line_number(text, line)?;
    text.put(b" looks like a board of other characters")?;
    text.put(b"\n")
}
