//! Lemmas of walks, areas and normal forms, for the proofs of callers. Each is the contract of a function that does
//! nothing, so a program has no use for it.
ghost use Rattle.std.specs.Prelude.{◌≡◌, ℕ, ◌↔◌, List, [], Bool, true};
ghost use Rattle.grid.specs.declared.dir.Dir.{Dir};
ghost use Rattle.grid.specs.Squares.{Squares};
ghost use Rattle.grid.specs.Board.{Board, Scene};
ghost use Rattle.grid.specs.States.{IsScene};
ghost use Rattle.grid.specs.Plays.{Play, Any};
ghost use Rattle.area.specs.Area.{Area, IsNorm, at};

/// A walk can be walked back.
pub fn walks_go_both_ways()
    ensures { (board : Board) (s : Scene) (q : ℕ) → IsScene board s → Area board s q → Area board (at s q) s.player }
{}

/// If a state passes a test that looks at the boxes alone, each state of a walk from it passes the test.
pub fn what_boxes_decide_lasts()
    ensures { (board : Board) (s t : Scene) (ds : List Dir) (test : Squares → Bool) → test s.boxes ≡ true →
        Play board Any s ds [] t
        → Play board (λ x. test x.boxes ≡ true) s ds [] t }
{}

/// Each state has exactly one normal form.
pub fn each_state_has_one_normal_form()
    ensures some { (board : Board) (s : Scene) → IsScene board s → (n : Scene) × IsNorm board s n }
    ensures one { (board : Board) (s m n : Scene) → IsNorm board s m → IsNorm board s n → m ≡ n }
{}

/// The states of an area share a normal form, and states that share a normal form share an area.
pub fn an_area_has_one_normal_form()
    ensures same { (board : Board) (s t n : Scene) (ds : List Dir) → IsScene board s → Play board Any s ds [] t →
        IsNorm board s n ↔ IsNorm board t n }
    ensures shared { (board : Board) (s t n : Scene) → IsScene board s → IsScene board t → IsNorm board s n →
        IsNorm board t n → (ds : List Dir) ×
        Play board Any s ds [] t }
{}
