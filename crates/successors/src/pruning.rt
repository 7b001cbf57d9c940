//! Leaves out positions from which no solution can keep the cap, by the pushes that lone boxes need.
ghost use Rattle.std.specs.Prelude.{◌≡◌, ◌<◌, ◌≤◌, ◌↔◌, Some, IsTrue, length, take};
ghost use Rattle.std.specs.List.{swap};
ghost use Rattle.grid.specs.Board.{Scene};
ghost use Rattle.grid.specs.States.{FitsLevel};
ghost use Rattle.successors.specs.Capping.{capped, uncapped};
ghost use Rattle.successors.specs.ParcelView.{AreSuccessors, FitLevel};
ghost use Rattle.successors.specs.inside.Pruned.{ArePicked, IsWithin};
ghost use Rattle.successors.specs.inside.Sums.{AreSums};

use crate::parcel::Successor;
use doom::Bound;
use grid::Position;

/// Whether the boxes of a position need at most `most` pushes by the bound.
pub(crate) fn is_within(bound: &Bound, most: u32, position: &Position) -> bool
    requires { FitsLevel bound.now position.now }
    ensures { IsTrue result ↔ IsWithin bound.now position.now.boxes most }
{
    match bound.lower(position) {
        Some(low) => low <= most,
        None => false,
    }
}

/// Moves those of the first `count` successors that the next layer admits to the front, in their order and with their
/// sums, and returns their number.
pub(crate) fn keep_admitted(
    bound: &Bound,
    most: u32,
    layer: u64,
    slots: &mut [Successor],
    sums: &mut [u32],
    count: usize,
) -> usize
    requires filled { count ≤ length slots.old }
    requires fits { FitLevel bound.now (take count slots.old) }
    requires sums { AreSums (take count slots.old) (take count sums.old) }
    ensures filled { result ≤ length slots.new }
    ensures fits { FitLevel bound.now (take result slots.new) }
    ensures sums { AreSums (take result slots.new) (take result sums.new) }
    ensures successors { (n : Scene) → AreSuccessors (uncapped bound.now) layer n (take count slots.old) →
        AreSuccessors (capped bound.now (Some most)) layer n (take result slots.new) }
{
    let most = u64::from(most);
    if layer >= most {
        return 0;
    }
    pick(bound, (most - layer - 1) as u32, slots, sums, count)
}

// Moves those of the first `count` successors whose boxes need at most `most` pushes to the front, in their order and
// with their sums, and returns their number.
fn pick(bound: &Bound, most: u32, slots: &mut [Successor], sums: &mut [u32], count: usize) -> usize
    requires filled { count ≤ length slots.old }
    requires fits { FitLevel bound.now (take count slots.old) }
    requires sums { AreSums (take count slots.old) (take count sums.old) }
    ensures filled { result ≤ length slots.new }
    ensures picked { ArePicked bound.now most (take count slots.old) (take result slots.new) }
    ensures sums { AreSums (take result slots.new) (take result sums.new) }
{
    let mut kept = 0;
    for place in 0..count {
        if is_within(bound, most, &slots[place].position) {
            bring(slots, sums, kept, place);
            kept += 1;
        }
    }
    kept
}

// Swaps the successors, and the sums, of two places; `front` is not behind `place`.
fn bring(slots: &mut [Successor], sums: &mut [u32], front: usize, place: usize)
    requires order { front ≤ place }
    requires slots { place < length slots.old }
    requires sums { place < length sums.old }
    ensures slots { slots.new ≡ swap slots.old front place }
    ensures sums { sums.new ≡ swap sums.old front place }
{
    slots.swap(front, place);
    sums.swap(front, place);
}
