//! The parents of a layer's positions. A search keeps nothing else of a layer whose ranks are done.
ghost use Rattle.std.specs.Prelude.{◌≡◌, slice_get};

use crate::layer::Layer;
use grid::{Push, Square};
use std::marker::Model;
use store::Origin;

/// The parents of a layer's positions by rank, in one word each: enough to retrace a solution.
#[derive(Drop)]
pub struct Parents {
    origins: Vec<Origin>,
}

impl Model for Parents {
    ghost use Rattle.std.specs.Prelude.{List};
    ghost use Rattle.grid.specs.declared.square.Push.{Push};
    ghost use Rattle.store.specs.Entries.{Origin as Parted};

    ghost Value = { List (Parted Push) };

    ghost view = { λ a. a.origins.items };
}

impl Parents {
    /// Takes a layer apart: its parents, and the memory of its squares, which another layer can reuse
    /// ([`Layer::join_in`]).
    pub fn of(layer: Layer) -> (Parents, Vec<Square>)
        ensures { result.0 ≡ layer.origins }
    {
        let Layer {
            origins,
            squares,
            ..
        } = layer;
        (Parents { origins }, squares)
    }

    /// The rank of a position's parent in the layer before, and the push that leads from there; `None` in layer 0 and
    /// beyond the layer.
    pub fn parent(&self, rank: u64) -> Option<(u64, Push)>
        ensures { result ≡ slice_get self.now rank }
    {
        parent_in(self.origins.as_slice(), rank)
    }
}

/// The parent of the position with a rank, as [`Parents::parent`] gives it, in a layer with these origins.
pub(crate) fn parent_in(origins: &[Origin], rank: u64) -> Option<(u64, Push)>
    ensures { result ≡ slice_get origins.now rank }
{
    let origin = origins.get(rank as usize)?;
    Some(origin.parts())
}
