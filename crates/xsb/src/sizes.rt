//! Row lines, and the rows in them.
ghost use Rattle.std.specs.Prelude.{◌++◌, List, MatchOption, OnOk};
ghost use Rattle.grid.specs.declared.cell.Cell.{Cell};
ghost use Rattle.xsb.specs.Rows.{IsRowLine, IsTextLine};
ghost use Rattle.xsb.specs.inside.Reading.{IsSize, AppendsRows};

use crate::bytes::{BAR, WALL};
use crate::rows::{push_row, row_length};
use grid::Cell;
use std::alloc::AllocError;

/// The number of rows, and the length of the longest, without the floor at the ends.
#[derive(Clone, Copy)]
pub(crate) struct Size {
    pub(crate) rows: usize,
    pub(crate) cols: usize,
}

impl Size {
    ghost use Rattle.xsb.specs.inside.Reading.{IsSize};

    /// The size of these rows together with others.
    pub(crate) fn with(self, more: Size) -> Size
        ensures { (rows others : List (List Cell)) → IsSize self rows → IsSize more others →
            IsSize result (rows ++ others) }
    {
        Size {
            rows: self.rows.saturating_add(more.rows),
            cols: self.cols.max(more.cols),
        }
    }
}

/// The size of the rows of a row line. `None` for a text line.
pub(crate) fn line_size(line: &[u8]) -> Option<Size>
    ensures { MatchOption result (IsTextLine line.now) (λ size. (rows : List (List Cell)) × IsRowLine line.now rows ×
        IsSize size rows) }
{
    if !line.contains(&WALL) {
        return None;
    }
    let mut size = Size { rows: 0, cols: 0 };
    for piece in line.split(|byte| *byte == BAR) {
        if !piece.is_empty() {
            let cols = row_length(piece)?;
            size = Size {
                rows: size.rows.saturating_add(1),
                cols: size.cols.max(cols),
            };
        }
    }
    Some(size)
}

/// Appends the cells of the rows of a row line, each with floor on the right up to `cols` columns. These are at least
/// the length of each row.
pub(crate) fn push_line(line: &[u8], cols: usize, cells: &mut Vec<Cell>) -> Result<(), AllocError>
    ensures { OnOk result (AppendsRows line.now cols cells.old.items cells.new.items) }
{
    for piece in line.split(|byte| *byte == BAR) {
        if !piece.is_empty() {
            push_row(piece, cols, cells)?;
        }
    }
    Ok(())
}
