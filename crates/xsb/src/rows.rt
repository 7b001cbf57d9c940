//! Rows: items one after the other.
ghost use Rattle.std.specs.Prelude.{◌≡◌, ◌≤◌, ◌++◌, length, List, MatchOption, OnOk, replicate};
ghost use Rattle.grid.specs.declared.cell.Cell.{Cell};
ghost use Rattle.xsb.specs.Rows.{IsRow};
ghost use Rattle.xsb.specs.Boards.{cut_row, padded};
ghost use Rattle.xsb.specs.inside.Reading.{IsNoRow, IsRowOfLength};

use crate::cells::is_floor;
use crate::items::first_item;
use grid::Cell;
use std::alloc::AllocError;

/// The length of a piece as a row, without the floor at its end. `None` if it is no row.
pub(crate) fn row_length(piece: &[u8]) -> Option<usize>
    ensures { MatchOption result (IsNoRow piece.now) (λ n. IsRowOfLength piece.now n) }
{
    let mut rest = piece;
    let mut length: usize = 0;
    let mut kept = 0;
    while !rest.is_empty() {
        let (run, after) = first_item(rest)?;
        length = length.saturating_add(run.count);
        if !is_floor(run.cell) {
            kept = length;
        }
        rest = after;
    }
    Some(kept)
}

/// Appends the cells of a row, with floor on the right up to `cols` columns. These are at least its length without the
/// floor at its end.
pub(crate) fn push_row(piece: &[u8], cols: usize, cells: &mut Vec<Cell>) -> Result<(), AllocError>
    ensures { (row : List Cell) → IsRow piece.now row → length (cut_row row) ≤ cols →
        OnOk result (cells.new.items ≡ cells.old.items ++ padded cols row) }
{
    let mut rest = piece;
    let mut room = cols;
    while let Some((run, after)) = first_item(rest) {
        let count = run.count.min(room);
        push_cells(run.cell, count, cells)?;
        room -= count;
        rest = after;
    }
    push_cells(Cell::Floor, room, cells)
}

/// Appends a cell a number of times.
fn push_cells(cell: Cell, count: usize, cells: &mut Vec<Cell>) -> Result<(), AllocError>
    ensures { OnOk result (cells.new.items ≡ cells.old.items ++ replicate count cell) }
{
    if count == 1 {
        cells.push(cell)?;
        return Ok(());
    }
    let Some(all) = cells.len().checked_add(count) else {
        return Err(AllocError);
    };
    cells.resize(all, cell)
}
