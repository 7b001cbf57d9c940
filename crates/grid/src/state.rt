ghost use Rattle.std.specs.Prelude.{◌≡◌, ◌↔◌, IsTrue, IfOk};
ghost use Rattle.grid.specs.Board.{IsFree, IsSolved, start};
ghost use Rattle.grid.specs.States.{IsScene, Steps};
ghost use Rattle.grid.specs.Squares.{contains};

use crate::boxes::Boxes;
use crate::dir::Dir;
use crate::level::Level;
use crate::square::Square;
use std::alloc::{AllocError, Global};
use std::marker::Model;

/// The result of a step.
#[derive(Clone, Copy, PartialEq, Eq, Debug)]
pub enum Step {
    /// No step is possible in that direction. Nothing changed.
    Blocked,
    /// The player moved by one square.
    Walked,
    /// The player moved by one square and pushed a box.
    Pushed,
}

/// A state of a level: the squares of its boxes, in any number, and the player's square.
#[derive(Drop)]
pub struct State {
    boxes: Boxes,
    player: Square,
}

impl Model for State {
    ghost use Rattle.grid.specs.Board.{Scene};

    ghost Value = { Scene };

    ghost view = { λ a. record { boxes = a.boxes; player = a.player } };
}

impl State {
    /// The state at the start of the level. Fails only if out of memory.
    #[tactic(auto, unfolding(crate::specs::Board::start))]
    pub fn start(alloc: Global, level: &Level) -> Result<State, AllocError>
        ensures start { IfOk result (λ s. s ≡ start level.now) }
        ensures scene { IfOk result (λ s. IsScene level.now s) }
    {
        level.tell();
        Ok(State {
            boxes: Boxes::of(alloc, level)?,
            player: level.player(),
        })
    }

    /// Makes one step in a direction, if the rules allow it: the player moves to a free square, or pushes a box that
    /// has a free square behind it. The state is one of this level. Takes no memory.
    #[tactic(auto, using(crate::proofs::lemmas::Steps::inside_grid))]
    pub fn step(&mut self, level: &Level, dir: Dir) -> Step
        requires { IsScene level.now self.old }
        ensures steps { Steps level.now self.old dir result self.new }
        ensures scene { IsScene level.now self.new }
    {
        let ahead = level.next(self.player, dir);
        if level.is_wall(ahead) {
            return Step::Blocked;
        }
        if !self.has_box(ahead) {
            self.player = ahead;
            return Step::Walked;
        }
        let beyond = level.next(ahead, dir);
        if level.is_wall(beyond) || self.has_box(beyond) {
            return Step::Blocked;
        }
        self.boxes.shift(ahead, beyond);
        self.player = ahead;
        Step::Pushed
    }

    /// Whether every box is on a goal. The state is one of this level.
    #[tactic(auto, using(crate::proofs::lemmas::Steps::inside_grid), unfolding(crate::specs::Board::is_goal))]
    pub fn is_solved(&self, level: &Level) -> bool
        requires { IsScene level.now self.now }
        ensures { IsTrue result ↔ IsSolved level.now self.now }
    {
        let cells = level.cells();
        for (i, cell) in cells.iter().enumerate() {
            if self.has_box(Square(i as u16)) && !cell.has_goal() {
                return false;
            }
        }
        true
    }

    /// Whether a box is on the square.
    pub fn has_box(&self, square: Square) -> bool
        ensures { result ≡ contains self.now.boxes square }
    {
        self.boxes.has(square)
    }

    /// Moves the player to a square without wall or box.
    pub fn set_player(&mut self, level: &Level, square: Square)
        requires scene { IsScene level.now self.old }
        requires free { IsFree level.now self.old.boxes square }
        ensures state { self.new ≡ record { boxes = self.old.boxes; player = square } }
        ensures scene { IsScene level.now self.new }
    {
        self.player = square;
    }

    /// The player's square.
    pub fn player(&self) -> Square
        ensures { result ≡ self.now.player }
    {
        self.player
    }
}
