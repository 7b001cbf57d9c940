//! The neighbours of a square, and a table of those of each square of a board, so that a step needs no division.
ghost use Rattle.std.specs.Prelude.{◌≡◌, ◌%◌, ◌<◌, ◌≤◌, IfOk, length};
ghost use Rattle.grid.specs.Masks.{square_to};
ghost use Rattle.grid.specs.inside.AroundView.{AreAround, around_of};

use crate::cell::Cell;
use crate::dir::Dir;
use crate::limits::{MAX_COLS, MAX_SQUARES};
use crate::square::Square;
use std::alloc::{AllocError, Global};

/// A square for each direction.
#[derive(Clone, Copy, PartialEq, Eq)]
pub(crate) struct Around {
    pub(crate) d: Square,
    pub(crate) l: Square,
    pub(crate) r: Square,
    pub(crate) u: Square,
}

impl Around {
    /// The square in a direction.
    #[inline(always)]
    pub(crate) fn to(&self, dir: Dir) -> Square
        ensures { result ≡ square_to dir self.now }
    {
        match dir {
            Dir::D => self.d,
            Dir::L => self.l,
            Dir::R => self.r,
            Dir::U => self.u,
        }
    }
}

/// The neighbours of each square of these cells, row by row.
pub(crate) fn neighbours(
    alloc: Global,
    cols: usize,
    cells: &[Cell],
) -> Result<Vec<Around>, AllocError>
    requires columns { 1 ≤ cols }
    requires wide { cols ≤ MAX_COLS }
    requires bound { length cells.now ≤ MAX_SQUARES }
    ensures size { IfOk result (λ v. length v.items ≡ length cells.now) }
    ensures each { IfOk result (λ v. AreAround (record { cols = cols; cells = cells.now }) v.items) }
{
    let mut around = Vec::with_capacity(alloc, cells.len())?;
    let mut column = 0;
    for square in 0..cells.len() {
        around.push_reserved(neighbours_of(cols, cells, square, column));
        column = if column + 1 == cols { 0 } else { column + 1 };
    }
    Ok(around)
}

/// The neighbours of a square in a column.
#[inline(always)]
pub(crate) fn neighbours_of(cols: usize, cells: &[Cell], square: usize, column: usize) -> Around
    requires columns { 1 ≤ cols }
    requires wide { cols ≤ MAX_COLS }
    requires bound { length cells.now ≤ MAX_SQUARES }
    requires inside { square < length cells.now }
    requires column { column ≡ square % cols }
    ensures { result ≡ around_of (record { cols = cols; cells = cells.now }) square }
{
    let end = cells.len();
    let d = if square + cols < end {
        square + cols
    } else {
        end
    };
    let l = if column == 0 { end } else { square - 1 };
    let r = if column + 1 == cols { end } else { square + 1 };
    let u = if square < cols { end } else { square - cols };
    Around {
        d: Square(d as u16),
        l: Square(l as u16),
        r: Square(r as u16),
        u: Square(u as u16),
    }
}
