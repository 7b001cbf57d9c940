//! Laws of answers that callers may rely on. Each is the contract of a function that does nothing; call it to use the
//! law in a proof.
ghost use Rattle.std.specs.Prelude.{◌≡◌, ℕ, suc, ◌<◌, ◌≤◌, ◌↔◌, true, List, [], length};
ghost use Rattle.grid.specs.Board.{Scene};
ghost use Rattle.successors.specs.Problems.{Problem};
ghost use Rattle.grid.specs.Lawful.{IsLevel};
ghost use Rattle.layers.specs.BookView.{AreLawfulBooks, BookView, IsLawfulBook};
ghost use Rattle.layers.specs.Books.{AreAllShares};
ghost use Rattle.layers.specs.Holding.{all_held};
ghost use Rattle.grid.specs.declared.square.Push.{Push};
ghost use Rattle.store.specs.Entries.{Origin};
ghost use Rattle.successors.specs.Reaching.{IsLayerOf};
ghost use Rattle.solo.specs.Answers.{HasInAll, HaveTotal, IsAnswer};
ghost use Rattle.solo.specs.Fewest.{IsFewest, HasNoneWithin};
ghost use Rattle.solo.specs.inside.Searched.{IsLookedAt};
ghost use Rattle.solo.specs.declared.answer.Answer.TheVariants.{Limit};

use crate::answer::Answer;

/// A level with its cap and a limit have at most one answer.
#[tactic(auto, using(crate::proofs::Uniqueness::answer_same))]
pub fn an_answer_is_the_only_one()
    ensures { (problem : Problem) (limit : ℕ) (a b : Answer) → IsLevel problem.board → IsAnswer problem limit a →
        IsAnswer problem limit b → a ≡ b }
{}

/// The answer is `Limit` exactly if more positions than the limit are needed. A solvable level needs those of the
/// layers up to the fewest pushes of a solution, an unsolvable one those of all layers.
pub fn the_limit_is_passed_by_the_positions_needed()
    ensures solved { (problem : Problem) (limit pushes positions : ℕ) → IsLevel problem.board →
        IsFewest problem pushes → HaveTotal problem (suc pushes) positions →
        IsAnswer problem limit Limit ↔ (limit < positions) }
    ensures unsolvable { (problem : Problem) (limit positions : ℕ) → IsLevel problem.board → HasNoneWithin problem →
        HasInAll problem positions →
        IsAnswer problem limit Limit ↔ (limit < positions) }
{}

/// All layers after an empty layer are empty.
pub fn an_empty_layer_is_the_last()
    ensures { (problem : Problem) (empty later : ℕ) (places : List Scene) → IsLevel problem.board →
        IsLayerOf problem empty [] → empty ≤ later →
        IsLayerOf problem later places → places ≡ [] }
{}

/// If a book of any share is over, and the search looked at the layers that the book has closed, the answer is `Limit`.
pub fn a_book_that_is_over_passes_the_limit()
    ensures { (problem : Problem) (limit positions : ℕ) (trail : List (List (Origin Push))) (book : BookView) →
        IsLookedAt problem limit trail positions →
        IsLawfulBook book → book.level ≡ problem → book.limit ≡ limit → book.over ≡ true →
        length book.closed ≡ length trail → IsAnswer problem limit Limit }
{}

/// If the books of all shares together hold more positions than the limit, and the search looked at the layers that
/// they have closed, the answer is `Limit`, whichever ranks are done in each book.
pub fn books_that_hold_more_together_pass_the_limit()
    ensures { (problem : Problem) (limit positions : ℕ) (trail : List (List (Origin Push))) (books : List BookView)
        (all : AreAllShares books) →
        IsLookedAt problem limit trail positions → AreLawfulBooks books → all.first.level ≡ problem →
        length all.first.closed ≡ length trail →
        limit < all_held books → IsAnswer problem limit Limit }
{}
