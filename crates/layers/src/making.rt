//! New books: the book of one share of a level's positions, and the books of all shares.
ghost use Rattle.std.specs.Prelude.{◌≡◌, ◌+◌, ◌*◌, ◌<◌, ◌≤◌, IfOk, IfSome, MatchResult, [], length, replicate};
ghost use Rattle.grid.specs.Board.{start};
ghost use Rattle.grid.specs.Lawful.{box_count};
ghost use Rattle.grid.specs.States.{FitsLevel};
ghost use Rattle.successors.specs.Capping.{capped};
ghost use Rattle.layers.specs.BookView.{AreBounds, IsShareOfLayer};
ghost use Rattle.layers.specs.Books.{AreNewShares, IsNewBook, BookRefused};
ghost use Rattle.layers.specs.inside.BookInside.{IsFirst};
ghost use Rattle.store.specs.FoundView.{first_entries};
ghost use Rattle.std.specs.Arc.{arc_value};

use crate::book::{APART, Book};
use crate::fault::BookFault;
use crate::limits::MAX_WORKERS;
use crate::marks::Marks;
use area::{Scratch, normal};
use doom::doomed;
use grid::{Level, MAX_BOXES, Position};
use std::alloc::{AllocError, Global};
use std::sync::Arc;
use store::Found;
use successors::{MAX_SHARES, Problem, share_of};

impl Book {
    /// A book of a share of the level's positions, with layer 0 closed. That layer is empty if the start is doomed, if
    /// its lone boxes need more pushes than the cap, or if it is of another share. The limit is at least 1, there are 1
    /// to [`MAX_WORKERS`](crate::MAX_WORKERS) + 1 workers, and `share` is less than `shares`, at most [`MAX_SHARES`].
    /// Fails with [`BookFault::TooManyBoxes`] if the level has more than [`MAX_BOXES`](grid::MAX_BOXES) boxes, and with
    /// [`BookFault::OutOfMemory`].
    pub fn of(
        alloc: Global,
        level: Arc<Level>,
        cap: Option<u32>,
        limit: u32,
        workers: u8,
        share: u8,
        shares: u8,
    ) -> Result<Book, BookFault>
        requires limit { 1 ≤ limit }
        requires workers { (1 ≤ workers) × (workers ≤ MAX_WORKERS + 1) }
        requires share { share < shares }
        requires shares { shares ≤ MAX_SHARES }
        ensures ok { IfOk result (λ book. IsNewBook (capped (arc_value level) cap) limit workers share shares book) }
        ensures variant { MatchResult result (λ book. box_count (arc_value level) ≤ MAX_BOXES)
            (λ fault. BookRefused (arc_value level) fault) }
    {
        level.tell();
        level.tell_start();
        let Some(start) = Position::start(&level) else {
            return Err(BookFault::TooManyBoxes);
        };
        Ok(Book::of_share(alloc, &level, cap, &start, limit, workers, share, shares)?)
    }

    /// The books of all `shares` shares of the positions of a problem, share 0 first, each as [`Book::of`] makes it.
    /// They share the problem. Fails with [`BookFault::TooManyBoxes`] if the level has more than
    /// [`MAX_BOXES`](grid::MAX_BOXES) boxes, and with [`BookFault::OutOfMemory`].
    pub fn of_all_shares(
        alloc: Global,
        problem: &Arc<Problem>,
        limit: u32,
        workers: u8,
        shares: u8,
        scratch: &mut Scratch,
    ) -> Result<Vec<Book>, BookFault>
        requires limit { 1 ≤ limit }
        requires workers { (1 ≤ workers) × (workers ≤ MAX_WORKERS + 1) }
        requires shares { (1 ≤ shares) × (shares ≤ MAX_SHARES) }
        requires room { scratch.old.size ≡ length (arc_value problem.now).board.cells }
        ensures ok { IfOk result
            (λ books. AreNewShares (arc_value problem.now) limit workers shares books.items) }
        ensures variant { MatchResult result (λ books. box_count (arc_value problem.now).board ≤ MAX_BOXES)
            (λ fault. BookRefused (arc_value problem.now).board fault) }
        ensures size { scratch.new.size ≡ scratch.old.size }
    {
        let level = problem.level();
        level.tell();
        level.tell_start();
        let Some(start) = Position::start(level) else {
            return Err(BookFault::TooManyBoxes);
        };
        let first = first_position(problem, &start, scratch);
        Ok(all_with_first(alloc, problem, &first, limit, workers, shares)?)
    }

    // A book of a share of the level's positions from its start, with a new problem. Fails only if out of memory.
    fn of_share(
        alloc: Global,
        level: &Arc<Level>,
        cap: Option<u32>,
        position: &Position,
        limit: u32,
        workers: u8,
        share: u8,
        shares: u8,
    ) -> Result<Book, AllocError>
        requires bounds { AreBounds limit workers share shares }
        requires few { box_count (arc_value level.now) ≤ MAX_BOXES }
        requires start { position.now ≡ start (arc_value level.now) }
        requires fits { FitsLevel (arc_value level.now) position.now }
        ensures { IfOk result
            (λ book. IsNewBook (capped (arc_value level.now) cap) limit workers share shares book) }
    {
        let problem = Problem::of(alloc, level, cap)?;
        let problem = Arc::new(alloc, problem)?;
        let mut scratch = Scratch::new(alloc, level)?;
        let first = first_position(&problem, position, &mut scratch);
        drop(scratch);
        Book::with_first(alloc, problem, &first, limit, workers, share, shares)
    }

    // A book whose layer 0 has the first position of the problem, if there is one and it is of the share. Fails only if
    // out of memory.
    fn with_first(
        alloc: Global,
        problem: Arc<Problem>,
        first: &Option<Position>,
        limit: u32,
        workers: u8,
        share: u8,
        shares: u8,
    ) -> Result<Book, AllocError>
        requires bounds { AreBounds limit workers share shares }
        requires few { box_count (arc_value problem).board ≤ MAX_BOXES }
        requires first { IsFirst (arc_value problem) first.now }
        ensures { IfOk result (λ book. IsNewBook (arc_value problem) limit workers share shares book) }
    {
        problem.tell();
        let tallies = first_tallies(alloc, workers)?;
        let mut starts = Vec::new(alloc);
        starts.resize(1, 0)?;
        let found = found_of_share(alloc, &problem, first, share, shares)?;
        Ok(Book {
            problem,
            limit,
            workers,
            share,
            shares,
            found,
            starts,
            begun: false,
            claimed: Marks::none(alloc),
            done: Marks::none(alloc),
            next: 0,
            tallies,
            over: false,
            apart: [0; APART],
        })
    }
}

// The books of all shares, share 0 first, from the first position of the problem. Fails only if out of memory.
fn all_with_first(
    alloc: Global,
    problem: &Arc<Problem>,
    first: &Option<Position>,
    limit: u32,
    workers: u8,
    shares: u8,
) -> Result<Vec<Book>, AllocError>
    requires limit { 1 ≤ limit }
    requires workers { (1 ≤ workers) × (workers ≤ MAX_WORKERS + 1) }
    requires shares { (1 ≤ shares) × (shares ≤ MAX_SHARES) }
    requires few { box_count (arc_value problem.now).board ≤ MAX_BOXES }
    requires first { IsFirst (arc_value problem.now) first.now }
    ensures { IfOk result
        (λ books. AreNewShares (arc_value problem.now) limit workers shares books.items) }
{
    let mut books = Vec::with_capacity(alloc, shares as usize)?;
    for share in 0..shares {
        let problem = Arc::try_clone(problem)?;
        let book = Book::with_first(alloc, problem, first, limit, workers, share, shares)?;
        books.push(book)?;
    }
    Ok(books)
}

// The first position of a problem: the start's normal position, or none if the start is doomed or not admitted.
fn first_position(problem: &Problem, position: &Position, scratch: &mut Scratch) -> Option<Position>
    requires start { position.now ≡ start problem.now.board }
    requires fits { FitsLevel problem.now.board position.now }
    requires room { scratch.old.size ≡ length problem.now.board.cells }
    ensures first { IsFirst problem.now result }
    ensures size { scratch.new.size ≡ scratch.old.size }
{
    let level = problem.level();
    if doomed(level, problem.dead(), position, scratch) {
        return None;
    }
    if !problem.is_admitted(position) {
        return None;
    }
    let normal = normal(level, position, scratch);
    Some(normal)
}

// The tallies of new workers, all 0. They reserve `APART` more words, so that the tallies of the next book are on other
// cache lines.
fn first_tallies(alloc: Global, workers: u8) -> Result<Vec<u64>, AllocError>
    ensures { IfOk result (λ tallies. tallies.items ≡ replicate workers 0) }
{
    let mut tallies = Vec::with_capacity(alloc, workers as usize + APART)?;
    tallies.resize(workers as usize, 0)?;
    Ok(tallies)
}

// The positions that a new book of the share has found: the first position, if there is one and it is of the share.
fn found_of_share(
    alloc: Global,
    problem: &Problem,
    first: &Option<Position>,
    share: u8,
    shares: u8,
) -> Result<Found, AllocError>
    requires few { box_count problem.now.board ≤ MAX_BOXES }
    requires first { IsFirst problem.now first.now }
    requires shares { 0 < shares }
    ensures layer { IfOk result (λ found. IsShareOfLayer problem.now shares share 0 found.seen ×
        (length found.seen ≤ 1)) }
    ensures waiting { IfOk result (λ found. found.waiting ≡ []) }
    ensures size { IfOk result (λ found. (found.boxes ≡ box_count problem.now.board) ×
        (found.squares ≡ length problem.now.board.cells)) }
{
    let own = first_of_share(problem, first, share, shares);
    let squares = problem.level().squares();
    let found = Found::of(alloc, problem.boxes(), squares, &own)?;
    Ok(found)
}

// The share's position of layer 0: the first position, if there is one and it is of the share.
fn first_of_share(
    problem: &Problem,
    first: &Option<Position>,
    share: u8,
    shares: u8,
) -> Option<Position>
    requires first { IsFirst problem.now first.now }
    requires shares { 0 < shares }
    ensures layer { IsShareOfLayer problem.now shares share 0 (first_entries result) }
    ensures fits { IfSome result (FitsLevel problem.now.board) }
{
    problem.tell();
    let Some(position) = first else {
        return None;
    };
    if share_of(position, shares) != share {
        return None;
    }
    Some(position.copy())
}
