//! Items: a cell byte, or a count and then a cell byte.
ghost use Rattle.std.specs.Prelude.{MatchOption};
ghost use Rattle.xsb.specs.inside.Reading.{HasNoItem, BeginsWithItem};

use crate::cells::cell_of;
use counts::{digit_count, times};
use grid::Cell;

/// The cells of an item: one kind, several in a row.
#[derive(Clone, Copy)]
pub(crate) struct Run {
    pub(crate) count: usize,
    pub(crate) cell: Cell,
}

/// The first item of a piece, and the bytes after it. `None` if the piece does not begin with an item.
pub(crate) fn first_item(piece: &[u8]) -> Option<(Run, &[u8])>
    ensures { MatchOption result (HasNoItem piece.now) (λ first. BeginsWithItem piece.now first.0 first.1.now) }
{
    let (digits, rest) = piece.split_at(digit_count(piece));
    let (byte, rest) = rest.split_first()?;
    let cell = cell_of(*byte)?;
    let count = times(digits)?;
    Some((Run { count, cell }, rest))
}
