//! The state of a search between two layers.
ghost use Rattle.std.specs.Prelude.{◌≡◌, ◌≢◌, ◌+◌, ◌<◌, ◌≤◌, ◌↔◌, ℕ, List, Some, true, length, slice_get};
ghost use Rattle.std.specs.Prelude.{IfNone, IfOk, IfSome, OnErr, OnOk};
ghost use Rattle.std.specs.Arc.{arc_value};
ghost use Rattle.grid.specs.Lawful.{box_count};
ghost use Rattle.grid.specs.declared.limits.TheConstants.{MAX_BOXES};
ghost use Rattle.successors.specs.declared.limits.TheConstants.{MAX_SHARES};
ghost use Rattle.layers.specs.declared.limits.TheConstants.{MAX_WORKERS};
ghost use Rattle.layers.specs.BookView.{BookView};
ghost use Rattle.layers.specs.Books.{AreNewShares, HasBegun};
ghost use Rattle.layers.specs.Holding.{all_held};
ghost use Rattle.solo.specs.Answers.{HasNone, IsAnswer};
ghost use Rattle.solo.specs.Leads.{IsFirstSolved};
ghost use Rattle.solo.specs.declared.answer.Answer.TheVariants.{Limit};
ghost use Rattle.solo.specs.inside.Searched.{IsNextLayer, IsExamined, new_search, with_layer};
ghost use Rattle.solo.specs.inside.Together.{AreAllDone, AreStill, PassTogether};
ghost use Rattle.solo.specs.inside.Iterations.{AreDoneBy};

use crate::answer::Answer;
use crate::goals::first_solved;
use crate::lead::moves_back;
use crate::rest::{do_rest_of, left_of};
use area::Scratch;
use grid::Square;
use layers::{Book, BookFault, Layer, Parents, Problem};
use std::alloc::{AllocError, Global};
use std::marker::Model;
use std::sync::Arc;

/// A search of a problem within a limit of positions: the parents of the positions of each layer that it has examined,
/// the number of these positions, and a scratch. None of these layers is empty or has a solved position.
///
/// [`solve_alone`](crate::solve_alone) and the solver with workers drive it alike. It makes the books of layer 0
/// ([`new_books`](Search::new_books)). Each iteration joins the layer that the books closed last and examines it
/// ([`look`](Search::look)). If that gives no answer, the layer's ranks are done in the books
/// ([`do_rest`](Search::do_rest)), these close the next layer ([`close_rest`](crate::close_rest)), and the search takes
/// the examined one ([`push`](Search::push)). All calls fail only if out of memory.
#[derive(Drop)]
pub struct Search<'p> {
    alloc: Global,
    problem: &'p Arc<Problem>,
    limit: u32,
    trail: Vec<Parents>,
    positions: u64,
    scratch: Scratch,
}

impl<'p> Model for Search<'p> {
    ghost use Rattle.std.specs.Prelude.{◌≡◌, length};
    ghost use Rattle.std.specs.Arc.{arc_value};
    ghost use Rattle.solo.specs.inside.Searched.{IsLookedAt, SearchView};

    ghost Value = { SearchView };

    ghost view = { λ a. record {
      problem = arc_value a.problem.now;
      limit = a.limit;
      trail = a.trail.items;
      positions = a.positions;
    } };

    ghost invariant = { λ a. IsLookedAt (arc_value a.problem.now) a.limit a.trail.items a.positions ×
        (a.scratch.size ≡ length (arc_value a.problem.now).board.cells) };
}

impl<'p> Search<'p> {
    /// A search that has examined no layer.
    pub fn new(
        alloc: Global,
        problem: &'p Arc<Problem>,
        limit: u32,
    ) -> Result<Search<'p>, AllocError>
        ensures { IfOk result (λ search. search ≡ new_search (arc_value problem.now) limit) }
    {
        let scratch = Scratch::new(alloc, problem.level())?;
        Ok(Search {
            alloc,
            problem,
            limit,
            trail: Vec::new(alloc),
            positions: 0,
            scratch,
        })
    }

    /// New books of all `shares` shares of the problem's positions, share 0 first, for `workers` workers. The level
    /// has at most [`MAX_BOXES`](grid::MAX_BOXES) boxes.
    pub fn new_books(&mut self, workers: u8, shares: u8) -> Result<Vec<Book>, AllocError>
        requires boxes { box_count self.old.problem.board ≤ MAX_BOXES }
        requires limit { 1 ≤ self.old.limit }
        requires workers { (1 ≤ workers) × (workers ≤ MAX_WORKERS + 1) }
        requires shares { (1 ≤ shares) × (shares ≤ MAX_SHARES) }
        ensures books { IfOk result
            (λ books. AreNewShares self.old.problem self.old.limit workers shares books.items) }
        ensures same { self.new ≡ self.old }
    {
        match Book::of_all_shares(
            self.alloc,
            self.problem,
            self.limit,
            workers,
            shares,
            &mut self.scratch,
        ) {
            Ok(books) => Ok(books),
            Err(BookFault::TooManyBoxes) => unreachable!(),
            Err(BookFault::OutOfMemory) => Err(AllocError),
        }
    }

    /// The number of positions of the examined layers.
    pub fn positions(&self) -> u64
        ensures { result ≡ self.now.positions }
    {
        self.positions
    }

    /// Examines the layer that comes next. Returns the answer, if the layer gives one.
    ///
    /// The answer is `Limit` if this layer and those before it have more positions than the limit. It is `Solved` if
    /// the layer has a solved position. It is `Unsolvable`, or `NoneWithin` under a cap, if the layer is empty.
    pub fn look(&mut self, layer: &Layer) -> Result<Option<Answer>, AllocError>
        requires next { IsNextLayer self.old layer.now }
        ensures answer { IfOk result
            (λ found. IfSome found (λ answer. IsAnswer self.old.problem self.old.limit answer)) }
        ensures onward { IfOk result (λ found. IfNone found (IsExamined self.old layer.now)) }
        ensures limit { IfOk result
            (λ found. (found ≡ Some Limit) ↔ (self.old.limit < self.old.positions + length layer.now.places)) }
        ensures same { self.new ≡ self.old }
    {
        layer.tell();
        let positions = self.positions + layer.len();
        if positions > u64::from(self.limit) {
            return Ok(Some(Answer::Limit));
        }
        if let Some(rank) = first_solved(layer) {
            let answer = self.solved(layer, rank)?;
            return Ok(Some(answer));
        }
        if layer.is_empty() {
            return Ok(Some(none_of(layer, positions)));
        }
        Ok(None)
    }

    // The answer if the position with rank `rank` is the first solved one of the layer that comes next.
    fn solved(&mut self, layer: &Layer, rank: u64) -> Result<Answer, AllocError>
        requires next { IsNextLayer self.old layer.now }
        requires first { IsFirstSolved layer.now.level.board layer.now.places rank }
        requires within { self.old.positions + length layer.now.places ≤ self.old.limit }
        ensures answer { IfOk result (λ answer. IsAnswer self.old.problem self.old.limit answer) }
        ensures known { IfOk result (λ answer. answer ≢ Limit) }
        ensures same { self.new ≡ self.old }
    {
        layer.tell();
        let trail = self.trail.as_slice();
        let moves = moves_back(self.alloc, trail, layer, rank, &mut self.scratch)?;
        Ok(Answer::Solved {
            moves,
            pushes: layer.number(),
            positions: self.positions + layer.len(),
        })
    }

    /// Does, as worker `worker`, the ranks of a layer that are left in each book, even claimed ones, one book after the
    /// other, and closes none. Stops and returns `None` if the limit is passed: one of the books is over, or all
    /// together hold more positions. Otherwise each rank is done, and the result is the number of positions left up to
    /// the limit.
    ///
    /// After an error each book is still at work on the layer, perhaps with more of its ranks done. Only that worker
    /// gets credit for the ranks that are done here.
    pub fn do_rest(
        &mut self,
        books: &mut [Book],
        layer: &Layer,
        worker: u8,
    ) -> Result<Option<u64>, AllocError>
        requires level { layer.now.level ≡ self.old.problem }
        requires few { length books.old ≤ MAX_SHARES }
        requires begun { (i : ℕ) (v : BookView) → slice_get books.old i ≡ Some v → HasBegun v layer.now }
        requires worker { (i : ℕ) (v : BookView) → slice_get books.old i ≡ Some v → worker < v.workers }
        ensures still { AreStill layer.now books.old books.new }
        ensures credited { AreDoneBy worker books.old books.new }
        ensures done { IfOk result
            (λ left. IfSome left (λ n. AreAllDone books.new × (n + all_held books.new ≡ self.old.limit))) }
        ensures passed { IfOk result (λ left. IfNone left (PassTogether self.old.limit books.new)) }
        ensures same { self.new ≡ self.old }
    {
        let limit = self.limit;
        let scratch = &mut self.scratch;
        for index in 0..books.len() {
            let Some(left) = left_of(books, limit) else {
                return Ok(None);
            };
            if !do_rest_of(&mut books[index], layer, scratch, worker, left)? {
                return Ok(None);
            }
        }
        Ok(left_of(books, limit))
    }

    /// Takes a layer that was examined and gave no answer. Returns the memory of its squares, which the next layer can
    /// reuse. An error leaves the search unchanged.
    pub fn push(&mut self, layer: Layer) -> Result<Vec<Square>, AllocError>
        requires { IsExamined self.old layer }
        ensures ok { OnOk result (self.new ≡ with_layer self.old layer) }
        ensures err { OnErr result (self.new ≡ self.old) }
    {
        let count = layer.len();
        let (parents, memory) = Parents::of(layer);
        self.trail.push(parents)?;
        self.positions += count;
        Ok(memory)
    }
}

// The answer if no play solves the level within the layer's cap.
fn none_of(layer: &Layer, positions: u64) -> Answer
    ensures answer { (limit : ℕ) → HasNone layer.now.level limit positions → IsAnswer layer.now.level limit result }
    ensures known { result ≢ Limit }
{
    match layer.cap() {
        None => Answer::Unsolvable { positions },
        Some(_) => Answer::NoneWithin { positions },
    }
}
