//! Lines that may be meant as rows and are no row lines: where and why.
ghost use Rattle.std.specs.Prelude.{◌≡◌, ℕ, ◌+◌, ◌≤◌, ◌<◌, List, ◌∷◌, ◌++◌, length, IfSome, MatchBool, MatchOption};
ghost use Rattle.std.specs.Prelude.{◌==◌, ◌||◌, encode_utf8, false, true};
ghost use Rattle.std.specs.Char.{is_ascii_digit};
ghost use Rattle.std.specs.List.{list_any};
ghost use Rattle.grid.specs.declared.cell.Cell.{Cell};
ghost use Rattle.xsb.specs.Breaks.{AreItems, BreaksAt, HasFlaw, IsBroken, IsCause, IsRowAt};
ghost use Rattle.xsb.specs.Rows.{IsRowLine, IsTextLine};
ghost use Rattle.xsb.specs.inside.Breaking.{IsPastLine, rows_left};
ghost use Rattle.xsb.specs.inside.Cursors.{IsAt};
ghost use Rattle.xsb.specs.inside.Reading.{IsNextLine};

use crate::bytes::{BAR, BOX, BOX_ON_GOAL, GOAL, PLAYER, PLAYER_ON_GOAL, WALL};
use crate::items::first_item;
use crate::limits::MAX_FILE;
use crate::lines::Lines;
use crate::sizes::line_size;
use bstr::decode_utf8;
use counts::{MAX_DIGITS, digit_count, times};

/// The first code beyond ASCII after the control characters.
const FIRST_VISIBLE: u32 = 0xA0;

/// Why no item begins at a byte.
#[derive(Clone, Copy, PartialEq, Eq)]
pub enum Cause {
    /// This byte is no cell and no digit.
    Byte(u8),
    /// This character, beyond ASCII and no control character, is no cell.
    Character(char),
    /// The digits from there on write 0.
    ZeroCount,
    /// There are more than [`MAX_DIGITS`] digits.
    LongCount,
    /// No cell follows the count.
    LooseCount,
}

/// Why a line is no row line.
#[derive(Clone, Copy, PartialEq, Eq)]
pub enum Flaw {
    /// It has a wall, and is no list of items and bars.
    Breaks {
        /// The first byte of the line, counted from 1, at which neither an item nor a bar begins.
        byte: usize,
        /// Why not.
        cause: Cause,
    },
    /// It is a list of items and bars with the player, boxes or goals, and has no wall.
    NoWall,
}

/// A line that may be meant as a row and is no row line.
#[derive(Clone, Copy, PartialEq, Eq)]
pub struct BrokenRow {
    /// The number of the line, from 1.
    pub line: u32,
    /// Why it is no row line.
    pub flaw: Flaw,
    /// Whether the lines before and after it are row lines, so that nothing else parts two boards.
    pub parts: bool,
}

/// The lines of a collection that may be meant as rows and are no row lines, in order: lines with a wall, and lines of
/// cells without one between two row lines. It leaves out lines that begin with `;` or a letter, which are likely to be
/// comments, names and titles, and lines of one character alone, which are likely to part levels.
#[derive(Drop)]
pub struct BrokenRows<'a> {
    pub(crate) lines: Lines<'a>,
    /// Whether the line before the next one is a row line.
    pub(crate) after_row: bool,
}

impl<'a> BrokenRows<'a> {
    /// The lines of these bytes, which are at most [`MAX_FILE`].
    pub fn of(bytes: &'a [u8]) -> BrokenRows<'a>
        requires { length bytes.now ≤ MAX_FILE }
        ensures { IsPastLine bytes.now result }
    {
        BrokenRows {
            lines: Lines::of(bytes),
            after_row: false,
        }
    }

    /// The next one. `None` if none is left.
    pub fn next_row(&mut self) -> Option<BrokenRow>
        ensures on { (bytes : List ℕ) → IsPastLine bytes self.old → IsPastLine bytes self.new }
        ensures row { (bytes : List ℕ) → IsPastLine bytes self.old → IfSome result (λ row. IsBroken bytes row) }
        ensures left { rows_left self.new ≤ rows_left self.old }
        ensures fewer { IfSome result (λ _. rows_left self.new < rows_left self.old) }
    {
        'lines: loop {
            let number = self.lines.number;
            let Some(line) = self.lines.peek() else {
                return None;
            };
            let was_row = self.after_row;
            self.pass(line);
            if let Some(flaw) = flaw_of(line) {
                let parts = self.is_between_rows(was_row);
                if parts || has_wall(flaw) {
                    return Some(BrokenRow {
                        line: number,
                        flaw,
                        parts,
                    });
                }
            }
        }
    }

    /// Goes on past the next line, which is this one.
    fn pass(&mut self, line: &[u8])
        requires { IsNextLine self.old.lines.rest line.now }
        ensures past { (bytes : List ℕ) → IsAt bytes self.old.lines → IsPastLine bytes self.new }
        ensures number { self.new.lines.number ≡ self.old.lines.number + 1 }
        ensures fewer { rows_left self.new < rows_left self.old }
    {
        self.lines.skip();
        self.after_row = is_row(line);
    }

    /// Whether the line before the last one and the next line are row lines.
    fn is_between_rows(&self, was_row: bool) -> bool
        ensures before { result ≡ true → was_row ≡ true }
        ensures after { (bytes : List ℕ) → IsAt bytes self.now.lines → result ≡ true →
            IsRowAt bytes self.now.lines.number }
    {
        if !was_row {
            return false;
        }
        let Some(line) = self.lines.peek() else {
            return false;
        };
        is_row(line)
    }
}

/// Whether a line is a row line.
fn is_row(line: &[u8]) -> bool
    ensures { MatchBool result ((rows : List (List Cell)) × IsRowLine line.now rows) (IsTextLine line.now) }
{
    let Some(_) = line_size(line) else {
        return false;
    };
    true
}

/// Whether a line with this flaw has a wall.
fn has_wall(flaw: Flaw) -> bool {
    match flaw {
        Flaw::Breaks { .. } => true,
        Flaw::NoWall => false,
    }
}

/// Why a line is no row line. `None` for row lines, and for lines that are likely to be words or to part levels.
fn flaw_of(line: &[u8]) -> Option<Flaw>
    ensures { IfSome result (λ flaw. IsTextLine line.now × HasFlaw line.now flaw) }
{
    if is_row(line) || is_likely_words(line) {
        return None;
    }
    let found = first_break(line);
    if line.contains(&WALL) {
        let (byte, cause) = found?;
        return Some(Flaw::Breaks { byte, cause });
    }
    if found.is_none() && has_things(line) {
        return Some(Flaw::NoWall);
    }
    None
}

/// Whether a byte is the player, a box or a goal.
fn is_thing(byte: u8) -> bool
    ensures { result ≡ ((byte == 64) || (byte == 43) || (byte == 36) || (byte == 42) || (byte == 46)) }
{
    byte == PLAYER || byte == PLAYER_ON_GOAL || byte == BOX || byte == BOX_ON_GOAL || byte == GOAL
}

/// Whether a line has the player, a box or a goal, and is no repeated character.
fn has_things(line: &[u8]) -> bool
    ensures { result ≡ true →
        list_any (λ b. (b == 64) || (b == 43) || (b == 36) || (b == 42) || (b == 46)) line.now ≡ true }
{
    let Some(first) = line.first() else {
        return false;
    };
    line.iter().any(|byte| is_thing(*byte)) && line.iter().any(|byte| *byte != *first)
}

/// Whether a line begins with `;` or a letter.
fn is_likely_words(line: &[u8]) -> bool {
    match line.first() {
        Some(first) => *first == b';' || first.is_ascii_alphabetic(),
        None => false,
    }
}

/// The first byte, counted from 1, at which neither an item nor a bar begins, and why. `None` for items and bars alone.
fn first_break(line: &[u8]) -> Option<(usize, Cause)>
    ensures { MatchOption result (AreItems line.now) (λ found. BreaksAt line.now found.0 found.1) }
{
    let mut rest = line;
    while let Some((first, after)) = rest.split_first() {
        if *first == BAR {
            rest = after;
        } else if let Some((_, after)) = first_item(rest) {
            rest = after;
        } else {
            return Some((line.len() - rest.len() + 1, cause_of(*first, rest)));
        }
    }
    None
}

/// The character beyond ASCII that begins the bytes. `None` if none does, or a control character.
fn character_of(bytes: &[u8]) -> Option<char>
    ensures { IfSome result (λ c. (rest : List ℕ) × (bytes.now ≡ encode_utf8 c ++ rest) × (127 < c)) }
{
    let (found, _) = decode_utf8(bytes);
    let character = found?;
    if (character as u32) < FIRST_VISIBLE {
        return None;
    }
    let mut buffer = [0; 4];
    let text = character.encode_utf8(&mut buffer);
    if bytes.starts_with(text.as_bytes()) {
        return Some(character);
    }
    None
}

/// Why no item begins the bytes, of which this is the first, no digit.
fn mark_of(first: u8, bytes: &[u8]) -> Cause
    requires first { (rest : List ℕ) × (bytes.now ≡ first ∷ rest) }
    requires mark { is_ascii_digit first ≡ false }
    ensures { IsCause bytes.now result }
{
    match character_of(bytes) {
        Some(character) => Cause::Character(character),
        None => Cause::Byte(first),
    }
}

/// Why no item begins the bytes, of which this is the first.
fn cause_of(first: u8, bytes: &[u8]) -> Cause
    requires first { (rest : List ℕ) × (bytes.now ≡ first ∷ rest) }
    ensures { IsCause bytes.now result }
{
    let digits = digit_count(bytes);
    if digits == 0 {
        mark_of(first, bytes)
    } else if digits > MAX_DIGITS {
        Cause::LongCount
    } else if times(&bytes[..digits]).is_none() {
        Cause::ZeroCount
    } else {
        Cause::LooseCount
    }
}
