//! Laws of regions that callers may rely on. Each is the contract of a function that does nothing: call it in a proof
//! to use the law.
ghost use Rattle.regions.specs.Regions.{EndlessIsLost, ExcessIsBound, PartsAddUp};

use grid::Level;

/// No play that ends solved has fewer pushes than the boxes need, with an excess, above the tolls of the goals.
pub fn excess_is_bound(level: &Level)
    ensures { ExcessIsBound level.now }
{}

/// If all regions together count no more for a push than it wastes, what they say adds up to an excess; and where one
/// of them is endless, no play ends solved.
pub fn parts_add_up(level: &Level)
    ensures adds { PartsAddUp level.now }
    ensures lost { EndlessIsLost level.now }
{}
