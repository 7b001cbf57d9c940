//! Where the rows of a board are in a collection.
ghost use Rattle.std.specs.Prelude.{◌≡◌, ◌+◌, ◌≤◌, ◌++◌, List, length, take, replicate, IfOk, OnOk};
ghost use Rattle.grid.specs.declared.cell.Cell.{Cell};
ghost use Rattle.xsb.specs.Boards.{board_of};
ghost use Rattle.xsb.specs.Places.{is_packing, is_plain, row_places};
ghost use Rattle.xsb.specs.Rows.{pieces_of};
ghost use Rattle.xsb.specs.inside.Reading.{cut_lines};
ghost use Rattle.xsb.specs.inside.Sources.{HasRowsFor};
ghost use Rattle.xsb.specs.inside.Stretches.{HasRows};

use crate::boards::Stretch;
use crate::bytes::BAR;
use crate::entry::BoardEntry;
use crate::limits::MAX_FILE;
use crate::lines::cut_line;
use grid::Cell;
use std::alloc::{AllocError, Global};

/// Where a row of a board is.
#[derive(Clone, Copy, PartialEq, Eq)]
pub struct RowPlace {
    /// The number of its line, from 1.
    pub line: u32,
    /// Whether the line has neither counts nor bars, so that each byte of it is a cell of the row.
    pub plain: bool,
}

/// A board as it was read, lawful or not: its cells by rows, and where the rows are.
#[derive(Drop)]
pub struct BoardRows {
    /// The number of columns.
    pub cols: usize,
    /// The cells, row by row, each row with floor on the right up to the number of columns.
    pub cells: Vec<Cell>,
    /// The place of each row.
    pub places: Vec<RowPlace>,
}

/// Where a board is too large.
#[derive(Clone, Copy, PartialEq, Eq)]
pub enum Excess {
    /// It has too many rows: the number of the line with the first of them.
    Rows(u32),
    /// It has too many columns, and not too many rows: the number of the first line with too long a row.
    Columns(u32),
}

/// A board of a collection, and its rows as they were read.
#[derive(Drop)]
pub struct BoardSource {
    /// The board, or its first fault.
    pub entry: BoardEntry,
    /// The rows, or where the board is too large.
    pub rows: Result<BoardRows, Excess>,
}

/// The number of rows of a row line.
fn row_count(line: &[u8]) -> usize
    ensures { result ≡ length (pieces_of line.now) }
{
    line.split(|byte| *byte == BAR)
        .filter(|piece| !piece.is_empty())
        .count()
}

/// Whether a byte is a digit or a bar.
fn is_packing(byte: u8) -> bool
    ensures { result ≡ is_packing byte }
{
    byte.is_ascii_digit() || byte == BAR
}

/// Whether a line has neither digits nor bars.
fn is_plain(line: &[u8]) -> bool
    ensures { result ≡ is_plain line.now }
{
    let mut packed = false;
    for byte in line {
        packed |= is_packing(*byte);
    }
    !packed
}

/// Appends a place a number of times.
fn push_places(place: RowPlace, count: usize, places: &mut Vec<RowPlace>) -> Result<(), AllocError>
    ensures { OnOk result (places.new.items ≡ places.old.items ++ replicate count place) }
{
    let Some(all) = places.len().checked_add(count) else {
        return Err(AllocError);
    };
    places.resize(all, place)
}

impl Stretch<'_> {
    /// The places of the rows.
    fn places(&self, alloc: Global) -> Result<Vec<RowPlace>, AllocError>
        requires { self.now.first_line + self.now.count ≤ MAX_FILE + 1 }
        ensures { IfOk result (λ places.
            places.items ≡ row_places self.now.first_line (take self.now.count (cut_lines self.now.lines))) }
    {
        let mut places = Vec::new(alloc);
        let mut lines = self.lines.clone().unwrap();
        let mut number = self.first_line;
        'lines: for _ in 0..self.count {
            let Some(raw) = lines.next() else {
                break;
            };
            let line = cut_line(raw);
            let place = RowPlace {
                line: number,
                plain: is_plain(line),
            };
            push_places(place, row_count(line), &mut places)?;
            number += 1;
        }
        Ok(places)
    }

    /// The board with the places of its rows, or where it is too large.
    pub(crate) fn rows(&self, alloc: Global) -> Result<Result<BoardRows, Excess>, AllocError>
        requires { self.now.first_line + self.now.count ≤ MAX_FILE + 1 }
        ensures { (rows : List (List Cell)) → HasRows self.now rows → IfOk result (λ found.
            HasRowsFor (take self.now.count (cut_lines self.now.lines)) self.now.first_line (board_of rows) found) }
    {
        if let Some(line) = self.beyond.rows {
            return Ok(Err(Excess::Rows(line)));
        }
        if let Some(line) = self.beyond.cols {
            return Ok(Err(Excess::Columns(line)));
        }
        let cells = self.cells(alloc)?;
        let places = self.places(alloc)?;
        Ok(Ok(BoardRows {
            cols: self.size.cols,
            cells,
            places,
        }))
    }
}
