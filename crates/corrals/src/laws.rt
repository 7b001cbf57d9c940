//! Laws of corrals that callers may rely on. Each is the contract of a function that does nothing: call it in a proof
//! to use the law.
ghost use Rattle.corrals.specs.Corrals.{CorralsSuffice};

use grid::Level;

/// If a corral has to change before the level is solved, and each push that could be the first of its boxes, and could
/// help, can be made at once, then the pushes of its boxes suffice.
pub fn corrals_suffice(level: &Level)
    ensures { CorralsSuffice level.now }
{}
