//! Boards: longest runs of row lines, and whether they are lawful.
ghost use Rattle.std.specs.Prelude.{◌≡◌, ◌≢◌, List, MatchOption, MatchBool, IfOk};
ghost use Rattle.grid.specs.declared.cell.Cell.{Cell};
ghost use Rattle.xsb.specs.Boards.{board_of};
ghost use Rattle.xsb.specs.Collection.{IsJudged};
ghost use Rattle.xsb.specs.inside.Stretches.{AreCellsOf, HasRows, ReadsBoard, ReadsNoBoard, beyond_with, first_of};

use crate::lines::{Lines, cut_line};
use crate::sizes::{Size, line_size, push_line};
use bstr::LinesWithTerminator;
use grid::{Board, Cell, LevelFault, MAX_COLS, MAX_ROWS};
use std::alloc::{AllocError, Global};

/// The first lines up to which a board has too many rows, or a row that is too long.
#[derive(Clone, Copy)]
pub(crate) struct Beyond {
    pub(crate) rows: Option<u32>,
    pub(crate) cols: Option<u32>,
}

impl Beyond {
    /// These lines after reading one more, with this number; `size` is that of the rows up to it.
    fn with(self, size: Size, number: u32) -> Beyond
        ensures { result ≡ beyond_with self size number }
    {
        Beyond {
            rows: first_of(self.rows, size.rows > MAX_ROWS, number),
            cols: first_of(self.cols, size.cols > MAX_COLS, number),
        }
    }
}

/// The line that was found before, or else `number` if `is_found`.
fn first_of(line: Option<u32>, is_found: bool, number: u32) -> Option<u32>
    ensures { result ≡ first_of line is_found number }
{
    if line.is_none() && is_found {
        Some(number)
    } else {
        line
    }
}

/// The lines of a board, before they are made into cells.
#[derive(Drop)]
pub(crate) struct Stretch<'a> {
    /// The number of the first line.
    pub(crate) first_line: u32,
    /// The lines of the board, and those after it.
    pub(crate) lines: LinesWithTerminator<'a>,
    /// The number of lines.
    pub(crate) count: u32,
    /// The size of the rows.
    pub(crate) size: Size,
    /// The lines at which the board is too large.
    pub(crate) beyond: Beyond,
}

/// Reads the next row lines, up to a text line or the end. `None` if the next line is no row line.
pub(crate) fn read_board<'a>(lines: &mut Lines<'a>) -> Option<Stretch<'a>>
    ensures { MatchOption result (ReadsNoBoard lines.old lines.new) (λ board. ReadsBoard lines.old lines.new board) }
{
    let first_line = lines.number;
    let first = lines.rest.clone().unwrap();
    let mut size = Size { rows: 0, cols: 0 };
    let mut beyond = Beyond {
        rows: None,
        cols: None,
    };
    'rows: while let Some(line) = lines.peek() {
        let Some(more) = line_size(line) else {
            break;
        };
        size = size.with(more);
        beyond = beyond.with(size, lines.number);
        lines.skip();
    }
    let count = lines.number - first_line;
    if count == 0 {
        return None;
    }
    Some(Stretch {
        first_line,
        lines: first,
        count,
        size,
        beyond,
    })
}

impl Stretch<'_> {
    /// The cells of the board by rows, all rows as long as the longest.
    pub(crate) fn cells(&self, alloc: Global) -> Result<Vec<Cell>, AllocError>
        ensures { IfOk result (λ cells. AreCellsOf self.now cells.items) }
    {
        let mut cells = Vec::new(alloc);
        let mut lines = self.lines.clone().unwrap();
        'lines: for _ in 0..self.count {
            let Some(raw) = lines.next() else {
                break;
            };
            push_line(cut_line(raw), self.size.cols, &mut cells)?;
        }
        Ok(cells)
    }

    /// The board of the lines, or its first fault. A board that is too tall or too wide gets no cells.
    pub(crate) fn board(&self, alloc: Global) -> Result<Result<Board, LevelFault>, AllocError>
        requires { (rows : List (List Cell)) × HasRows self.now rows }
        ensures { (rows : List (List Cell)) → HasRows self.now rows → IfOk result (IsJudged (board_of rows)) }
    {
        if self.size.rows > MAX_ROWS {
            return Ok(Err(LevelFault::TooTall));
        }
        if self.size.cols > MAX_COLS {
            return Ok(Err(LevelFault::TooWide));
        }
        let cells = self.cells(alloc)?;
        match Board::from_cells(alloc, self.size.cols, cells) {
            Ok(board) => Ok(Ok(board)),
            Err(fault) => {
                if is_want_of_memory(fault) {
                    return Err(AllocError);
                }
                Ok(Err(fault))
            }
        }
    }
}

/// Whether a board was not made because of memory.
fn is_want_of_memory(fault: LevelFault) -> bool
    ensures { MatchBool result (fault ≡ LevelFault.OutOfMemory) (fault ≢ LevelFault.OutOfMemory) }
{
    matches!(fault, LevelFault::OutOfMemory)
}
