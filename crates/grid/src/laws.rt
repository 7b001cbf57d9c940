//! Laws of the game that callers may rely on. Each is the contract of a function that does nothing: call it in a proof
//! to use the law.
ghost use Rattle.std.specs.Prelude.{◌≡◌, ℕ, ◌≤◌, Bool, true, List, [], ◌∷◌, length, ◌⊎◌};
ghost use Rattle.grid.specs.Squares.{Squares, contains};
ghost use Rattle.grid.specs.Rising.{is_rising};
ghost use Rattle.grid.specs.Board.{Board, Scene, Walks, start, opposite, dir_cmp, push_cmp};
ghost use Rattle.grid.specs.States.{IsScene, Steps};
ghost use Rattle.grid.specs.Laws.{HasAsManyBoxes, scene_cmp, NotAfter};
ghost use Rattle.grid.specs.declared.dir.Dir.TheVariants.{D, L, R, U};
ghost use Rattle.grid.specs.Lawful.{IsLevel};
ghost use Rattle.grid.specs.States.{FitsLevel};
ghost use Rattle.grid.specs.Plays.{Play, Any, IsLeastSolution};

use crate::dir::Dir;
use crate::position::Position;
use crate::square::Push;
use crate::state::Step;

/// Two sets of squares with the same members are the same list.
#[tactic(auto, using(crate::proofs::lemmas::Squares::same_set))]
pub fn equal_sets_are_equal_lists()
    ensures { (xs ys : Squares) → is_rising xs ≡ true → is_rising ys ≡ true →
        ((q : ℕ) → contains xs q ≡ contains ys q) → xs ≡ ys }
{}

/// A level begins in a state with as many boxes as the level has.
pub fn a_level_begins_in_a_state()
    ensures { (board : Board) → IsLevel board → FitsLevel board (start board) }
{}

/// In each state and direction a step has exactly one result and leads to exactly one state, with as many boxes.
pub fn a_step_is_decided()
    ensures some { (board : Board) (s : Scene) (d : Dir) → IsScene board s → (did : Step) × (t : Scene) ×
        Steps board s d did t }
    ensures one { (board : Board) (s : Scene) (d : Dir) (a b : Step) (t u : Scene) → Steps board s d a t →
        Steps board s d b u → (a ≡ b) × (t ≡ u) }
    ensures state { (board : Board) (s : Scene) (d : Dir) (did : Step) (t : Scene) → IsScene board s →
        Steps board s d did t → IsScene board t }
    ensures boxes { (board : Board) (s : Scene) (d : Dir) (did : Step) (t : Scene) → IsScene board s →
        Steps board s d did t → HasAsManyBoxes s t }
{}

/// The opposite step undoes a step without a push. A walk (a play without a push) can be walked back in as many steps.
#[tactic(auto, using(crate::proofs::lemmas::Plays::walk_backwards))]
pub fn walks_can_be_walked_back()
    ensures step { (board : Board) (s : Scene) (d : Dir) (t : Scene) → IsScene board s → Walks board s d t →
        Walks board t (opposite d) s }
    ensures walk { (board : Board) (s t : Scene) (ds : List Dir) → IsScene board s → Play board Any s ds [] t
        → (es : List Dir) × (length es ≡ length ds) × Play board Any t es [] s }
{}

/// A play from a state ends in a state with as many boxes, and has at most as many pushes as steps.
pub fn a_play_keeps_states()
    ensures state { (board : Board) (s t : Scene) (ds : List Dir) (ps : List Push) → IsScene board s →
        Play board Any s ds ps t → IsScene board t }
    ensures boxes { (board : Board) (s t : Scene) (ds : List Dir) (ps : List Push) → IsScene board s →
        Play board Any s ds ps t → HasAsManyBoxes s t }
    ensures pushes { (board : Board) (s t : Scene) (ds : List Dir) (ps : List Push) → Play board Any s ds ps t →
        length ps ≤ length ds }
{}

/// The directions of a play determine its pushes and its end. Its pushes determine its end up to a walk.
#[tactic(auto, using(crate::proofs::lemmas::Plays::play_same))]
pub fn a_play_is_decided()
    ensures directions { (board : Board) (s t u : Scene) (ds : List Dir) (ps qs : List Push) →
        Play board Any s ds ps t → Play board Any s ds qs u
        → (ps ≡ qs) × (t ≡ u) }
    ensures pushes { (board : Board) (s t u : Scene) (ds es : List Dir) (ps : List Push) → IsScene board s →
        Play board Any s ds ps t → Play board Any s es ps u
        → (fs : List Dir) × Play board Any t fs [] u }
{}

/// Directions are ordered down, left, right, up; [`Dir::ALL`] has them in this order, and the default is the first.
/// Pushes are ordered by the square that the box left, then by the direction.
pub fn directions_and_pushes_are_ordered()
    ensures order { (d e : Dir) → ⟦<Dir as Ord>⟧.cmp d e ≡ dir_cmp d e }
    ensures all { Dir.ALL ≡ D ∷ L ∷ R ∷ U ∷ [] }
    ensures default { (d : Dir) → ⟦<Dir as Default>⟧.is_default d → d ≡ D }
    ensures pushes { (p q : Push) → ⟦<Push as Ord>⟧.cmp p q ≡ push_cmp p q }
{}

/// Positions are ordered by their boxes, square by square, then by the player's square.
pub fn positions_are_ordered()
    ensures { (s t : Scene) → ⟦<Position as Ord>⟧.cmp s t ≡ scene_cmp s t }
{}

/// The order of solutions is a total order, so a level has at most one least solution.
pub fn solutions_are_ordered()
    ensures either { (ds es : List Dir) (ps qs : List Push) → NotAfter ds ps es qs ⊎ NotAfter es qs ds ps }
    ensures onward { (ds es fs : List Dir) (ps qs rs : List Push) → NotAfter ds ps es qs → NotAfter es qs fs rs →
        NotAfter ds ps fs rs }
    ensures same { (ds es : List Dir) (ps qs : List Push) → NotAfter ds ps es qs → NotAfter es qs ds ps → (ds ≡ es) ×
        (ps ≡ qs) }
    ensures least { (board : Board) (ds es : List Dir) (ps qs : List Push) → IsLeastSolution board ds ps →
        IsLeastSolution board es qs → (ds ≡ es) × (ps ≡ qs) }
{}
