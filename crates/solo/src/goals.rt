//! Positions whose boxes are all on goals.
ghost use Rattle.std.specs.Prelude.{MatchOption};
ghost use Rattle.solo.specs.Leads.{AreUnsolved, IsFirstSolved};

use layers::Layer;

/// The least rank of the layer whose position has all its boxes on goals; `None` if there is none. Takes no memory.
pub fn first_solved(layer: &Layer) -> Option<u64>
    ensures { MatchOption result (AreUnsolved layer.now.level.board layer.now.places)
        (λ rank. IsFirstSolved layer.now.level.board layer.now.places rank) }
{
    for rank in 0..layer.len() {
        if layer.level().are_on_goals(layer.boxes_at(rank)) {
            return Some(rank);
        }
    }
    None
}
