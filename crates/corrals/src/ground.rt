//! The position in which a corral is searched.
ghost use Rattle.std.specs.Prelude.{◌≡◌, ℕ, suc, ◌<◌, IsTrue, length, nat_lt, true};
ghost use Rattle.grid.specs.declared.dir.Dir.{Dir as Direction};
ghost use Rattle.grid.specs.Board.{is_wall, is_goal, next};
ghost use Rattle.grid.specs.Squares.{Squares, contains};
ghost use Rattle.grid.specs.States.{FitsLevel};
ghost use Rattle.area.specs.After.{IsAreaOf};
ghost use Rattle.area.specs.Area.{Area};
ghost use Rattle.doom.specs.Deadlocks.{IsFrozen};
ghost use Rattle.prices.specs.Helping.{NeverHelps};
ghost use Rattle.prices.specs.Solving.{Allows};

use area::Scratch;
use doom::Dead;
use grid::{Dir, Level, Position, Square};
use prices::Slack;
use std::marker::Model;

/// A position of a level, with its flood in the scratch. Contracts see the level, the position, and how many pushes are
/// left after the next one; `None` is any number.
#[derive(Drop)]
pub(crate) struct Ground<'a> {
    level: &'a Level,
    dead: &'a Dead,
    position: &'a Position,
    scratch: &'a Scratch,
    slack: &'a Slack<'a>,
}

impl<'a> Model for Ground<'a> {
    ghost use Rattle.corrals.specs.inside.Grounds.{GroundView, ground_view, IsFlooded};

    ghost Value = { GroundView };

    ghost view = { ground_view };

    ghost invariant = { IsFlooded };
}

impl<'a> Ground<'a> {
    /// The ground of a position.
    pub(crate) fn of(
        level: &'a Level,
        dead: &'a Dead,
        position: &'a Position,
        scratch: &'a Scratch,
        slack: &'a Slack<'a>,
    ) -> Ground<'a>
        requires fits { FitsLevel level.now position.now }
        requires dead_of_level { dead.now ≡ level.now }
        requires flooded { IsAreaOf level.now position.now scratch.now.reached }
        requires boxes { scratch.now.boxes ≡ position.now.boxes }
        requires slack { (slack.now.board ≡ level.now) × (slack.now.scene ≡ position.now) }
        ensures { result ≡ record { board = level.now; scene = position.now; left = slack.now.left } }
    {
        Ground {
            level,
            dead,
            position,
            scratch,
            slack,
        }
    }

    /// The position.
    pub(crate) fn position(&self) -> &Position
        ensures { result.now ≡ self.now.scene }
    {
        self.position
    }

    /// Whether the level has the square.
    pub(crate) fn has(&self, square: Square) -> bool
        ensures { result ≡ nat_lt square (length self.now.board.cells) }
    {
        (square.0 as usize) < self.level.squares()
    }

    /// The square next to a square.
    pub(crate) fn next(&self, square: Square, dir: Dir) -> Square
        requires { square < length self.now.board.cells }
        ensures { result ≡ next self.now.board square dir }
    {
        self.level.next(square, dir)
    }

    /// Whether the square is a wall.
    pub(crate) fn is_wall(&self, square: Square) -> bool
        ensures { result ≡ is_wall self.now.board square }
    {
        self.level.is_wall(square)
    }

    /// Whether the square has a goal.
    pub(crate) fn is_goal(&self, square: Square) -> bool
        ensures { result ≡ is_goal self.now.board square }
    {
        self.level.is_goal(square)
    }

    /// Whether no play brings a box from the square to a goal, so that no push onto it ever helps.
    pub(crate) fn is_dead(&self, square: Square) -> bool
        ensures { IsTrue result → (m b : ℕ) (d : Direction) → next self.now.board b d ≡ square →
            NeverHelps self.now.board m self.now.scene b d }
    {
        self.dead.is_dead(square)
    }

    /// Whether a push of the box on the square never helps, if there is one: it leads onto a dead square, or costs
    /// more than is left.
    pub(crate) fn never_helps(&self, square: Square, dir: Dir) -> bool
        ensures { IsTrue result → (m : ℕ) → Allows self.now.left m →
            NeverHelps self.now.board (suc m) self.now.scene square dir }
    {
        if !self.has(square) || !self.has_box(square) {
            return false;
        }
        let ahead = self.next(square, dir);
        if self.is_dead(ahead) {
            return true;
        }
        self.slack.never_helps(square, dir)
    }

    /// Whether boxes on some of these squares, at least one of them off goal, are frozen.
    pub(crate) fn any_frozen(&self, squares: &[Square], spare: &mut Scratch) -> bool
        requires inside { (q : ℕ) → contains squares.now q ≡ true → q < length self.now.board.cells }
        requires room { spare.old.size ≡ length self.now.board.cells }
        ensures frozen { IsTrue result → (members : Squares) × IsFrozen self.now.board squares.now members }
        ensures kept { spare.new ≡ spare.old }
    {
        doom::any_frozen(self.level, self.dead, squares, spare)
    }

    /// Whether a box is on the square.
    pub(crate) fn has_box(&self, square: Square) -> bool
        ensures { result ≡ contains self.now.scene.boxes square }
    {
        self.scratch.has_box(square)
    }

    /// Whether the player walks to the square.
    pub(crate) fn reaches(&self, square: Square) -> bool
        ensures { IsTrue result → Area self.now.board self.now.scene square }
    {
        self.scratch.reaches(square)
    }
}
