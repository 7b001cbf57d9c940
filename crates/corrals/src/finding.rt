//! The search for a corral in a position.
ghost use Rattle.std.specs.Prelude.{◌≡◌, ℕ, suc, IsTrue};
ghost use Rattle.grid.specs.Masks.{has_bit};
ghost use Rattle.grid.specs.States.{FitsLevel};
ghost use Rattle.area.specs.After.{IsAreaOf};
ghost use Rattle.corrals.specs.Corrals.{IsClosure};
ghost use Rattle.prices.specs.Solving.{Allows};

use crate::checking::is_closure;
use crate::corral::Corral;
use crate::ground::Ground;
use area::Scratch;
use doom::Dead;
use grid::{Level, Position};
use prices::Slack;

/// Looks for a corral of a position in which something has to change. The last flood of `scratch` must be that of the
/// position, and `slack` that of the position. If the result is `true`, `corral` holds one, and the pushes of its boxes
/// suffice: if some play solves the position with the pushes that are left, one begins with such a push. `false` says
/// nothing. Takes no memory.
pub fn find(
    level: &Level,
    dead: &Dead,
    position: &Position,
    scratch: &Scratch,
    slack: &Slack<'_>,
    corral: &mut Corral,
) -> bool
    requires fits { FitsLevel level.now position.now }
    requires dead_of_level { dead.now ≡ level.now }
    requires flooded { IsAreaOf level.now position.now scratch.now.reached }
    requires boxes { scratch.now.boxes ≡ position.now.boxes }
    requires slack { (slack.now.board ≡ level.now) × (slack.now.scene ≡ position.now) }
    ensures { IsTrue result → (m : ℕ) → Allows slack.now.left m
        → IsClosure level.now (suc m) (has_bit corral.new.held) (has_bit corral.new.room) position.now }
{
    let ground = Ground::of(level, dead, position, scratch, slack);
    let chosen = corral.choice.choose(&ground);
    if !chosen || corral.size != level.squares() {
        return false;
    }
    let found = is_closure(
        &ground,
        corral.choice.boxes.as_slice(),
        corral.choice.squares.as_slice(),
        &mut corral.sets,
        &mut corral.spare,
    );
    found
}
