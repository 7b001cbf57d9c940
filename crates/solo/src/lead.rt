//! The play that leads to a position, retraced through the layers.
ghost use Rattle.std.specs.Prelude.{◌≡◌, ℕ, ◌≤◌, ◌<◌, IfOk, List, Some, length, map, slice_get};
ghost use Rattle.grid.specs.declared.square.Push.{Push as Made};
ghost use Rattle.grid.specs.Board.{Scene};
ghost use Rattle.successors.specs.Problems.{Problem};
ghost use Rattle.layers.specs.LayerView.{LayerView, IsWhole};
ghost use Rattle.store.specs.Entries.{Origin};
ghost use Rattle.solo.specs.Leads.{AreFirstLayers, WritesLead, level_of, last_places};
ghost use Rattle.solo.specs.inside.LeadsBack.{IsLeadAt};
ghost use Rattle.solo.specs.inside.Searched.{AreTrailed, IsNextOf};

use area::Scratch;
use grid::{Moves, Push};
use layers::{Layer, Parents};
use std::alloc::{AllocError, Global};
use successors::play_pushes;

/// The play that leads to the position with a rank of the last layer. Its pushes are the least push list that leads
/// there. Among the plays with these pushes it has the fewest moves, then the least text in the order `d`, `l`, `r`,
/// `u`. The layers are layers 0 to k of one level. Fails only if out of memory.
pub fn moves_to(
    alloc: Global,
    layers: &[Layer],
    rank: u64,
    scratch: &mut Scratch,
) -> Result<Moves, AllocError>
    requires layers { AreFirstLayers layers.now }
    requires rank { rank < length (last_places layers.now) }
    requires room { scratch.old.size ≡ length (level_of layers.now).board.cells }
    ensures lead { IfOk result (λ moves. (n : Scene) → slice_get (last_places layers.now) rank ≡ Some n →
        WritesLead (level_of layers.now).board n moves) }
    ensures size { scratch.new.size ≡ scratch.old.size }
{
    tell_each(layers);
    let pushes = lead_of(alloc, layers, rank)?;
    play_pushes(alloc, layers[0].level(), pushes.as_slice(), scratch)
}

// The play of [`moves_to`] to the position with a rank of a layer, from the parents of earlier layers. Fails only if
// out of memory.
pub(crate) fn moves_back(
    alloc: Global,
    trail: &[Parents],
    layer: &Layer,
    rank: u64,
    scratch: &mut Scratch,
) -> Result<Moves, AllocError>
    requires next { IsNextOf trail.now layer.now }
    requires rank { rank < length layer.now.places }
    requires room { scratch.old.size ≡ length layer.now.level.board.cells }
    ensures lead { IfOk result (λ moves. (n : Scene) → slice_get layer.now.places rank ≡ Some n →
        WritesLead layer.now.level.board n moves) }
    ensures size { scratch.new.size ≡ scratch.old.size }
{
    let pushes = lead_back(alloc, trail, layer, rank)?;
    play_pushes(alloc, layer.level(), pushes.as_slice(), scratch)
}

// A lemma: the invariant of each layer. It does nothing.
fn tell_each(layers: &[Layer])
    ensures { (j : ℕ) (layer : LayerView) → slice_get layers.now j ≡ Some layer → IsWhole layer }
{
    for layer in layers {
        layer.tell();
    }
}

// A type that has the parents of a layer's positions.
trait HasParents {
    // the origins of the positions, by rank
    ghost origins: { Self → List (Origin Made) };

    // The rank of a position's parent in the layer before, and the push that leads from there.
    fn parent_of(&self, rank: u64) -> Option<(u64, Push)>
        ensures { result ≡ slice_get (origins self.now) rank };
}

impl HasParents for Layer {
    ghost origins = { λ it. it.origins };

    fn parent_of(&self, rank: u64) -> Option<(u64, Push)> {
        self.parent(rank)
    }
}

impl HasParents for Parents {
    ghost origins = { λ it. it };

    fn parent_of(&self, rank: u64) -> Option<(u64, Push)> {
        self.parent(rank)
    }
}

// The lead of the position with a rank of a layer, from the parents of earlier layers. Fails only if out of memory.
fn lead_back(
    alloc: Global,
    trail: &[Parents],
    layer: &Layer,
    rank: u64,
) -> Result<Vec<Push>, AllocError>
    requires next { IsNextOf trail.now layer.now }
    requires rank { rank < length layer.now.places }
    ensures { IfOk result (λ pushes. IsLeadAt layer.now.level layer.now.places rank pushes.items) }
{
    layer.tell();
    let Some((parent, push)) = layer.parent(rank) else {
        return Ok(Vec::new(alloc));
    };
    let mut pushes = lead_of(alloc, trail, parent)?;
    pushes.push(push)?;
    Ok(pushes)
}

// The lead of the position with rank `asked` of the last layer, retraced through the parents of all layers. Fails only
// if out of memory.
fn lead_of<P: HasParents>(alloc: Global, trail: &[P], asked: u64) -> Result<Vec<Push>, AllocError>
    ensures { IfOk result (λ pushes. (problem : Problem) (layers : List LayerView) →
        AreTrailed problem layers (map P.origins trail.now) →
        asked < length (last_places layers) → IsLeadAt problem (last_places layers) asked pushes.items) }
{
    let mut pushes = Vec::new(alloc);
    let mut rank = asked;
    let mut number = trail.len();
    while number > 1 {
        number -= 1;
        if let Some((parent, push)) = trail[number].parent_of(rank) {
            pushes.push(push)?;
            rank = parent;
        }
    }
    pushes.reverse();
    Ok(pushes)
}
