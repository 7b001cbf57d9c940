ghost use Rattle.std.specs.Prelude.{◌≡◌, ◌+◌, ◌*◌, ◌<◌, ◌≤◌, ◌==◌, true, take, drop, length, slice_get, slice_index_or};
ghost use Rattle.std.specs.Prelude.{Some};
ghost use Rattle.grid.specs.Board.{Scene};
ghost use Rattle.grid.specs.Lawful.{box_count};
ghost use Rattle.grid.specs.Rising.{is_rising};
ghost use Rattle.grid.specs.States.{FitsLevel};
ghost use Rattle.doom.specs.Deadlocks.{Undoomed};
ghost use Rattle.layers.specs.LayerView.{IsWhole};

use crate::parents::parent_in;
use grid::{Level, MAX_BOXES, Position, Push, Square};
use std::marker::Model;
use std::sync::Arc;
use store::Origin;
use successors::Problem;

/// A whole layer of a problem: the normal positions whose least push lists through undoomed positions have the layer's
/// number of pushes, in the order of those lists. Under a cap it has only the positions whose lone boxes can still
/// reach goals within the cap. A position's rank is its index in the list, from 0.
#[derive(Drop)]
pub struct Layer {
    pub(crate) problem: Arc<Problem>,
    pub(crate) number: u64,
    // the number of positions, and their squares: for each position its boxes, then its player
    pub(crate) count: usize,
    pub(crate) squares: Vec<Square>,
    pub(crate) origins: Vec<Origin>,
}

impl Model for Layer {
    ghost use Rattle.layers.specs.LayerView.{LayerView};

    ghost Value = { LayerView };

    ghost use Rattle.layers.specs.inside.Insides.{layer_view, IsSoundLayer};

    ghost view = { layer_view };

    ghost invariant = { IsSoundLayer };
}

impl Layer {
    /// A lemma: the invariant of every layer. It does nothing.
    pub fn tell(&self)
        ensures { IsWhole self.now }
    {
        let _ = &self.origins;
    }

    /// The level.
    pub fn level(&self) -> &Level
        ensures { result.now ≡ self.now.level.board }
    {
        self.problem.level()
    }

    /// The cap: the greatest number of pushes of a solution; `None` if no cap is set.
    pub fn cap(&self) -> Option<u32>
        ensures { result ≡ self.now.level.cap }
    {
        self.problem.cap()
    }

    /// The problem: the level with its cap, its dead squares and, under a cap, its bound.
    pub fn problem(&self) -> &Problem
        ensures { result.now ≡ self.now.level }
    {
        &*self.problem
    }

    /// The layer's number: the number of pushes that lead to its positions.
    pub fn number(&self) -> u64
        ensures { result ≡ self.now.number }
    {
        self.number
    }

    /// The number of positions.
    pub fn len(&self) -> u64
        ensures { result ≡ length self.now.places }
    {
        self.count as u64
    }

    /// Whether the layer has no position.
    pub fn is_empty(&self) -> bool
        ensures { result ≡ (length self.now.places == 0) }
    {
        self.count == 0
    }

    /// The position with a rank; `None` beyond the layer.
    pub fn position(&self, rank: u64) -> Option<Position>
        ensures { result ≡ slice_get self.now.places rank }
    {
        if rank >= self.len() {
            return None;
        }
        Some(self.place(rank))
    }

    /// The box squares of the position with a rank, in rising order. The rank is less than [`Layer::len`].
    pub fn boxes_at(&self, rank: u64) -> &[Square]
        requires { rank < length self.now.places }
        ensures { (m : Scene) → slice_get self.now.places rank ≡ Some m → result.now ≡ m.boxes }
    {
        read_boxes(self.squares.as_slice(), rank as usize, self.boxes())
    }

    /// The rank of a position's parent in the layer before, and the push that leads from there; `None` in layer 0 and
    /// beyond the layer.
    pub fn parent(&self, rank: u64) -> Option<(u64, Push)>
        ensures { result ≡ slice_get self.now.origins rank }
    {
        parent_in(self.origins.as_slice(), rank)
    }

    // The number of boxes of a position.
    fn boxes(&self) -> usize
        ensures { result ≡ box_count self.now.level.board }
    {
        self.problem.boxes()
    }

    // The position with a rank of the layer, read from its squares.
    pub(crate) fn place(&self, rank: u64) -> Position
        requires { rank < length self.now.places }
        ensures place { slice_get self.now.places rank ≡ Some result }
        ensures fits { FitsLevel self.now.level.board result }
        ensures undoomed { Undoomed self.now.level.board result }
    {
        read_position(self.squares.as_slice(), rank as usize, self.boxes())
    }
}

// The position with a rank in a list of squares: for each position its `boxes` boxes, then its player.
fn read_position(squares: &[Square], rank: usize, boxes: usize) -> Position
    requires inside { rank * (boxes + 1) + (boxes + 1) ≤ length squares.now }
    requires rising { is_rising (take boxes (drop (rank * (boxes + 1)) squares.now)) ≡ true }
    requires few { boxes ≤ MAX_BOXES }
    ensures { result ≡ record {
      boxes = take boxes (drop (rank * (boxes + 1)) squares.now);
      player = slice_index_or (drop (rank * (boxes + 1)) squares.now) boxes 0;
    } }
{
    let (_, row) = squares.split_at(rank * (boxes + 1));
    let (front, _) = row.split_at(boxes);
    Position::of_rising(front, row[boxes])
}

// The box squares of the position with a rank in such a list.
fn read_boxes(squares: &[Square], rank: usize, boxes: usize) -> &[Square]
    requires { rank * (boxes + 1) + (boxes + 1) ≤ length squares.now }
    ensures { result.now ≡ take boxes (drop (rank * (boxes + 1)) squares.now) }
{
    let (_, row) = squares.split_at(rank * (boxes + 1));
    let (front, _) = row.split_at(boxes);
    front
}
