//! Laws of books that callers may rely on. Each is the contract of a function that does nothing; call it to use the law
//! in a proof.
ghost use Rattle.std.specs.Prelude.{◌≡◌, ℕ, ◌+◌, ◌<◌, ◌≤◌, List, length, map, sum_by};
ghost use Rattle.grid.specs.Board.{Scene};
ghost use Rattle.successors.specs.Problems.{Problem};
ghost use Rattle.grid.specs.Lawful.{IsLevel};
ghost use Rattle.successors.specs.Reaching.{AreLayersOf, IsLayerOf, total};
ghost use Rattle.layers.specs.BookView.{BookView, AreBounds, AreSharesOfLayer, AreLawfulBooks, IsLawfulBook};
ghost use Rattle.layers.specs.BookView.{IsShareOfLayer, last_layer, last_list};
ghost use Rattle.store.specs.Entries.{Closed};
ghost use Rattle.layers.specs.LayerView.{LayerView, IsWhole};
ghost use Rattle.layers.specs.Books.{AreAllShares, HasBegun, IsNewBook};
ghost use Rattle.layers.specs.Holding.{AreManyIn, all_held};
ghost use Rattle.layers.specs.Events.{BookEvent, History, AreMadeAlike, KeepsClosed, CloseAlike};

/// A lawful book stays lawful under any list of begins, claims, hand backs, reopens and closes, each with any of its
/// results. Its level and numbers stay the same, and each closed list keeps its index. A parcel that comes twice, too
/// late or from elsewhere is a refused event. A claim whose parcel never comes has no hand back after it.
pub fn a_book_stays_lawful()
    ensures lawful { (before after : BookView) (events : List BookEvent) → IsLawfulBook before →
        History before events after → IsLawfulBook after }
    ensures made { (before after : BookView) (events : List BookEvent) → History before events after →
        AreMadeAlike before after }
    ensures closed { (before after : BookView) (events : List BookEvent) → History before events after →
        KeepsClosed before after }
{}

/// A new book of a lawful level is lawful, and by [`a_book_stays_lawful`] it stays so under any list of events.
pub fn a_new_book_is_lawful()
    ensures { (problem : Problem) (limit workers share shares : ℕ) (book : BookView) → IsLevel problem.board →
        AreBounds limit workers share shares →
        IsNewBook problem limit workers share shares book → IsLawfulBook book }
{}

/// Two lawful books of one share of one level and cap have the same list for each layer that both have closed. The
/// order of parcels, their workers, repetitions and refusals do not matter.
pub fn the_order_of_events_leaves_no_trace()
    ensures { (one other : BookView) → IsLawfulBook one → IsLawfulBook other → one.level ≡ other.level →
        one.share ≡ other.share → one.shares ≡ other.shares →
        CloseAlike one other }
{}

/// A lawful book that has begun has marks for exactly the ranks of its last closed layer, whichever workers set them.
pub fn a_begun_book_has_the_ranks_of_its_layer()
    ensures { (book : BookView) (layer : LayerView) → IsLawfulBook book → IsWhole layer → HasBegun book layer →
        length book.done ≡ length layer.places }
{}

/// The positions of all shares of a layer add up to those of the layer, and one share has no more than the layer.
pub fn the_shares_make_up_the_layer()
    ensures sum { (problem : Problem) (shares k : ℕ) (lists : List (List Closed)) (layer : List Scene) →
        IsLevel problem.board → 0 < shares →
        AreSharesOfLayer problem shares k lists → IsLayerOf problem k layer → total lists ≡ length layer }
    ensures part { (problem : Problem) (shares share k : ℕ) (list : List Closed) (layer : List Scene) →
        IsLevel problem.board → IsShareOfLayer problem shares share k list → IsLayerOf problem k layer →
        length list ≤ length layer }
{}

/// Lawful books that are all the shares hold all the shares of their last closed layer. Their closed positions add up
/// to those of the layers up to it.
pub fn the_books_of_all_shares_hold_the_layers()
    ensures last { (books : List BookView) (all : AreAllShares books) → AreLawfulBooks books →
        AreSharesOfLayer all.first.level all.first.shares (last_layer all.first) (map last_list books) }
    ensures total { (books : List BookView) (all : AreAllShares books) → AreLawfulBooks books →
        (layers : List (List Scene)) →
        AreLayersOf all.first.level layers → length layers ≡ length all.first.closed →
        total layers ≡ sum_by (λ book. total book.closed) books }
    ensures part { (book : BookView) (layers : List (List Scene)) → IsLawfulBook book →
        AreLayersOf book.level layers → length book.closed ≤ length layers →
        total book.closed ≤ total layers }
{}

/// Lawful books that are all the shares hold together the positions of the layers that they have closed, and `many`
/// different positions of the next one. So if they hold more than a limit, these layers and the next one have more.
pub fn the_books_of_all_shares_hold_the_layers_and_some_of_the_next()
    ensures { (books : List BookView) (all : AreAllShares books) → AreLawfulBooks books →
        (layers : List (List Scene)) → AreLayersOf all.first.level layers →
        length layers ≡ length all.first.closed → (many : ℕ) × AreManyIn all.first.level (length all.first.closed) many
        × (all_held books ≡ total layers + many) }
{}
