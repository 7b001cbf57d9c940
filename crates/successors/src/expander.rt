//! Expands positions in memory that is made once.
ghost use Rattle.std.specs.Prelude.{◌≡◌, IfNone, IfOk, IfSome, MatchOption, length};
ghost use Rattle.grid.specs.Board.{Scene};
ghost use Rattle.grid.specs.States.{FitsLevel};
ghost use Rattle.area.specs.After.{IsAreaOf};
ghost use Rattle.area.specs.Area.{IsNorm};
ghost use Rattle.area.specs.Pushes.{ArePushes, CanPush};
ghost use Rattle.doom.specs.Deadlocks.{Undoomed};
ghost use Rattle.doom.specs.Lost.{IsLost};
ghost use Rattle.doom.specs.inside.Dangers.{AreDangers};
ghost use Rattle.successors.specs.Expanding.{HasPushesOf};
ghost use Rattle.successors.specs.Expansion.{IsSuccessor, after_push};

use crate::problem::Problem;
use crate::pushing::{ParentPosition, make_after};
use area::{MAX_PUSHES, Scratch, possible_pushes};
use arrayvec::ArrayVec;
use doom::Dangers;
use grid::{Position, Push};
use std::alloc::{AllocError, Global};
use std::marker::Model;

/// Expands the positions of a problem one push at a time, in memory that is made once. Contracts see the level with
/// its cap, what the last flood reached, and the pushes that were found.
#[derive(Drop)]
pub struct Expander<'p> {
    problem: &'p Problem,
    scratch: Scratch,
    pushes: ArrayVec<Push, MAX_PUSHES>,
    dangers: Dangers,
}

impl<'p> Model for Expander<'p> {
    ghost use Rattle.std.specs.Prelude.{◌≡◌, length};
    ghost use Rattle.doom.specs.inside.Dangers.{AreDangers};
    ghost use Rattle.successors.specs.Expanding.{ExpanderView};

    ghost Value = { ExpanderView };

    ghost view = { λ a. record
        { problem = a.problem.now; reached = a.scratch.reached; boxes = a.scratch.boxes; pushes = a.pushes.items } };

    ghost invariant = { λ a. (a.scratch.size ≡ length a.problem.now.board.cells) ×
        AreDangers a.problem.now.board a.scratch.boxes a.dangers.words.items };
}

impl<'p> Expander<'p> {
    /// All the memory that later calls need. The only error is running out of memory.
    pub fn new(alloc: Global, problem: &'p Problem) -> Result<Expander<'p>, AllocError>
        ensures { IfOk result (λ expander. expander.problem ≡ problem.now) }
    {
        let scratch = Scratch::new(alloc, problem.level())?;
        let mut dangers = Dangers::unknown();
        dangers.find(problem.level(), problem.dead(), &scratch);
        Ok(Expander {
            problem,
            scratch,
            pushes: ArrayVec::new(),
            dangers,
        })
    }

    /// Finds the pushes that the player can make in a position after walks. Takes no memory.
    pub fn find_pushes(&mut self, position: &Position)
        requires fits { FitsLevel self.old.problem.board position.now }
        ensures problem { self.new.problem ≡ self.old.problem }
        ensures found { HasPushesOf self.new position.now }
    {
        let problem = self.problem;
        find_in(
            problem,
            position,
            &mut self.scratch,
            &mut self.pushes,
            &mut self.dangers,
        );
    }

    /// The pushes that were found last, in their order: the boxes by rising squares, and each box down, left, right,
    /// up.
    pub fn pushes(&self) -> &[Push]
        ensures { result.now ≡ self.now.pushes }
    {
        self.pushes.as_slice()
    }

    /// The memory that holds the last flood.
    pub fn scratch(&self) -> &Scratch
        ensures { (result.now.reached ≡ self.now.reached) × (result.now.boxes ≡ self.now.boxes) }
    {
        &self.scratch
    }

    /// The normal position after a push of the position whose pushes were found last. `None` if the pushed box dooms
    /// that position, so that no play solves it. Takes no memory.
    pub fn try_push(&mut self, position: &Position, push: Push) -> Option<Position>
        requires found { HasPushesOf self.old position.now }
        requires possible { CanPush self.old.problem.board position.now push }
        ensures made { IfSome result
            (λ after. IsNorm self.old.problem.board (after_push self.old.problem.board position.now push) after
            × FitsLevel self.old.problem.board after) }
        ensures successor { Undoomed self.old.problem.board position.now →
            MatchOption result ((m : Scene) → ¬ (IsSuccessor self.old.problem.board position.now push m))
            (λ after. IsSuccessor self.old.problem.board position.now push after) }
        ensures lost { IfNone result
            (IsLost self.old.problem.board (after_push self.old.problem.board position.now push)) }
        ensures kept { self.new ≡ self.old }
    {
        let problem = self.problem;
        push_in(problem, position, push, &self.dangers, &mut self.scratch)
    }
}

// Finds the pushes of a position, and the squares where they may freeze a box.
fn find_in(
    problem: &Problem,
    position: &Position,
    scratch: &mut Scratch,
    pushes: &mut ArrayVec<Push, MAX_PUSHES>,
    dangers: &mut Dangers,
)
    requires fits { FitsLevel problem.now.board position.now }
    requires room { scratch.old.size ≡ length problem.now.board.cells }
    ensures pushes { ArePushes problem.now.board position.now pushes.new.items }
    ensures flooded { IsAreaOf problem.now.board position.now scratch.new.reached }
    ensures boxes { scratch.new.boxes ≡ position.now.boxes }
    ensures dangers { AreDangers problem.now.board scratch.new.boxes dangers.new.words.items }
    ensures size { scratch.new.size ≡ scratch.old.size }
{
    possible_pushes(problem.level(), position, scratch, pushes);
    dangers.find(problem.level(), problem.dead(), scratch);
}

// The normal position after a push. `None` if the pushed box dooms it.
fn push_in(
    problem: &Problem,
    position: &Position,
    push: Push,
    dangers: &Dangers,
    scratch: &mut Scratch,
) -> Option<Position>
    requires fits { FitsLevel problem.now.board position.now }
    requires room { scratch.old.size ≡ length problem.now.board.cells }
    requires flooded { IsAreaOf problem.now.board position.now scratch.old.reached }
    requires boxes { scratch.old.boxes ≡ position.now.boxes }
    requires dangers { AreDangers problem.now.board scratch.old.boxes dangers.now.words.items }
    requires possible { CanPush problem.now.board position.now push }
    ensures made { IfSome result
        (λ after. IsNorm problem.now.board (after_push problem.now.board position.now push) after
        × FitsLevel problem.now.board after) }
    ensures successor { Undoomed problem.now.board position.now →
        MatchOption result ((m : Scene) → ¬ (IsSuccessor problem.now.board position.now push m))
        (λ after. IsSuccessor problem.now.board position.now push after) }
    ensures lost { IfNone result (IsLost problem.now.board (after_push problem.now.board position.now push)) }
    ensures kept { scratch.new ≡ scratch.old }
{
    let parent = ParentPosition {
        level: problem.level(),
        dead: problem.dead(),
        position,
        dangers,
        is_undoomed: false,
    };
    let mut after = Position::default();
    let made = make_after(&parent, 0, push, scratch, &mut after);
    if !made {
        return None;
    }
    Some(after)
}
