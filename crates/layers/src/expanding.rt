//! The successors of the positions of a layer.
ghost use Rattle.std.specs.Prelude.{◌≡◌, ◌<◌, length, slice_get, Some};
ghost use Rattle.grid.specs.Board.{Scene};
ghost use Rattle.successors.specs.ParcelView.{AreSuccessors, IsRanked};
ghost use Rattle.successors.specs.Capping.{capped};

use crate::layer::Layer;
use area::Scratch;
use doom::{Bound, Dead};
use successors::{Parcel, Problem, RankedPosition};

/// The undoomed successors of the position with a rank of the layer, in the order of their pushes. Under a cap it
/// leaves out those from which, by the bound, no solution keeps the cap. The rank is less than [`Layer::len`]; the dead
/// squares, the bound and the scratch are those of the level. Takes no memory.
pub fn expand<'a>(
    layer: &'a Layer,
    dead: &Dead,
    bound: &Bound,
    rank: u64,
    scratch: &mut Scratch,
) -> Parcel<'a>
    requires within { rank < length layer.now.places }
    requires dead_of_level { dead.now ≡ layer.now.level.board }
    requires bound_of_level { bound.now ≡ layer.now.level.board }
    requires room { scratch.old.size ≡ length layer.now.level.board.cells }
    ensures of { (result.level ≡ layer.now.level) × (result.layer ≡ layer.now.number) × (result.rank ≡ rank) }
    ensures successors { (n : Scene) → slice_get layer.now.places rank ≡ Some n →
        AreSuccessors layer.now.level layer.now.number n result.successors }
    ensures size { scratch.new.size ≡ scratch.old.size }
{
    let ranked = ranked_position(layer, rank);
    Parcel::of(layer.level(), &ranked, dead, Some(bound), scratch)
}

/// The parcel that [`expand`] gives, with the dead squares and the bound of the layer's problem, which is a parameter
/// so that the parcel may outlive the layer. Takes no memory.
pub fn expand_over<'a>(
    problem: &'a Problem,
    layer: &Layer,
    rank: u64,
    scratch: &mut Scratch,
) -> Parcel<'a>
    requires problem { problem.now ≡ layer.now.level }
    requires within { rank < length layer.now.places }
    requires room { scratch.old.size ≡ length layer.now.level.board.cells }
    ensures of { (result.level ≡ layer.now.level) × (result.layer ≡ layer.now.number) × (result.rank ≡ rank) }
    ensures successors { (n : Scene) → slice_get layer.now.places rank ≡ Some n →
        AreSuccessors layer.now.level layer.now.number n result.successors }
    ensures size { scratch.new.size ≡ scratch.old.size }
{
    let ranked = ranked_position(layer, rank);
    Parcel::of(
        problem.level(),
        &ranked,
        problem.dead(),
        problem.bound().as_ref(),
        scratch,
    )
}

/// Overwrites a parcel, of any layer, with the one that [`expand_over`] gives. Takes no memory.
pub fn expand_over_into<'a>(
    problem: &'a Problem,
    layer: &Layer,
    rank: u64,
    scratch: &mut Scratch,
    parcel: &mut Parcel<'a>,
)
    requires problem { problem.now ≡ layer.now.level }
    requires within { rank < length layer.now.places }
    requires room { scratch.old.size ≡ length layer.now.level.board.cells }
    ensures of { (parcel.new.level ≡ layer.now.level) × (parcel.new.layer ≡ layer.now.number) ×
        (parcel.new.rank ≡ rank) }
    ensures successors { (n : Scene) → slice_get layer.now.places rank ≡ Some n →
        AreSuccessors layer.now.level layer.now.number n parcel.new.successors }
    ensures size { scratch.new.size ≡ scratch.old.size }
{
    let ranked = ranked_position(layer, rank);
    parcel.fill(problem, &ranked, scratch);
}

// The position with a rank of the layer, with its layer and rank.
fn ranked_position(layer: &Layer, rank: u64) -> RankedPosition
    requires { rank < length layer.now.places }
    ensures ranked { IsRanked layer.now.level.board result }
    ensures level { capped layer.now.level.board result.cap ≡ layer.now.level }
    ensures of { (result.layer ≡ layer.now.number) × (result.rank ≡ rank) }
    ensures place { slice_get layer.now.places rank ≡ Some result.position }
{
    layer.tell();
    RankedPosition {
        cap: layer.cap(),
        layer: layer.number(),
        rank,
        position: layer.place(rank),
    }
}
