ghost use Rattle.std.specs.Prelude.{◌≡◌, ℕ, suc, ◌+◌, ◌<◌, ◌≤◌, ◌↔◌, ◌++◌, List, true, false, IsTrue, IfOk, OnOk};
ghost use Rattle.std.specs.Prelude.{OnErr, length, slice_index};
ghost use Rattle.grid.specs.declared.dir.Dir.{Dir};
ghost use Rattle.grid.specs.declared.moves.Letter.{Letter};
ghost use Rattle.grid.specs.Board.{IsFree, next};
ghost use Rattle.grid.specs.States.{IsScene};
ghost use Rattle.grid.specs.Squares.{contains};
ghost use Rattle.area.specs.LeastWalks.{WalkAnswer, walk_letters};
ghost use Rattle.area.specs.inside.Descent.{IsDown, IsFirstDown, IsDescent};
ghost use Rattle.area.specs.inside.Spread.{AreBlocked, IsSearched, IsSpread};

use crate::scratch::Scratch;
use crate::spread::{BOX_MARK, spread};
use grid::{Dir, Letter, Level, MAX_SQUARES, Moves, Square, State};
use std::alloc::AllocError;

/// Appends a shortest walk without a push from the state to the square: of several, the least text in the order
/// `d`, `l`, `r`, `u`. Returns `true`, or `false` exactly if no walk leads to the square; then it appends nothing.
///
/// Takes time in proportion to the squares of the grid.
///
/// # Errors
///
/// [`AllocError`] if memory for the letters runs out. The list is then unchanged.
pub fn walk(
    level: &Level,
    state: &State,
    square: Square,
    scratch: &mut Scratch,
    moves: &mut Moves,
) -> Result<bool, AllocError>
    requires scene { IsScene level.now state.now }
    requires room { scratch.old.size ≡ length level.now.cells }
    ensures walk { IfOk result (λ found. WalkAnswer level.now state.now square moves.old moves.new found) }
    ensures err { OnErr result (moves.new ≡ moves.old) }
    ensures size { scratch.new.size ≡ scratch.old.size }
{
    if level.is_wall(square) || state.has_box(square) {
        return Ok(false);
    }
    search_from(level, state, square, &mut scratch.marks, &mut scratch.queue);
    let player = state.player();
    if scratch.marks[player.0 as usize] <= BOX_MARK {
        return Ok(false);
    }
    let len = moves.len();
    let outcome = descend(level, player, square, &scratch.marks, moves);
    if outcome.is_err() {
        moves.truncate(len);
        return Err(AllocError);
    }
    Ok(true)
}

// Marks every square that walks from a square reach, round the boxes.
fn search_from(level: &Level, state: &State, from: Square, marks: &mut [u16], queue: &mut [Square])
    requires scene { IsScene level.now state.now }
    requires free { IsFree level.now state.now.boxes from }
    requires room { length marks.old ≡ length level.now.cells }
    requires places { length queue.old ≡ length level.now.cells }
    requires small { length marks.old ≤ MAX_SQUARES }
    ensures { IsSearched level.now state.now.boxes BOX_MARK from marks.new }
{
    block_boxes(state, marks);
    spread(level, from, marks, queue);
}

// Gives the squares of the boxes their mark, and clears all other marks.
fn block_boxes(state: &State, marks: &mut [u16])
    requires inside { (q : ℕ) → contains state.now.boxes q ≡ true → q < length marks.old }
    requires small { length marks.old ≤ MAX_SQUARES }
    ensures { AreBlocked BOX_MARK state.now.boxes marks.new }
{
    marks.fill(0);
    for i in 0..marks.len() {
        if state.has_box(Square(i as u16)) {
            marks[i] = BOX_MARK;
        }
    }
}

// Appends the steps down the marks from one square to another: at each square the first direction that leads down.
fn descend(
    level: &Level,
    from: Square,
    to: Square,
    marks: &[u16],
    moves: &mut Moves,
) -> Result<(), AllocError>
    requires room { length marks.now ≡ length level.now.cells }
    requires spread { IsSpread level.now BOX_MARK to (λ q. slice_index marks.now q) }
    requires reached { BOX_MARK < slice_index marks.now from }
    ensures ok { OnOk result ((ds : List Dir) × IsDescent level.now BOX_MARK to (λ q. slice_index marks.now q) from ds ×
        (moves.new ≡ moves.old ++ walk_letters ds)) }
    ensures err { OnErr result ((xs : List Letter) × (moves.new ≡ moves.old ++ xs)) }
{
    let mut square = from;
    while square != to {
        let dir = first_down(level, square, marks);
        moves.push(Letter { dir, push: false })?;
        square = level.next(square, dir);
    }
    Ok(())
}

// The first direction in which the next square has a mark one less.
fn first_down(level: &Level, square: Square, marks: &[u16]) -> Dir
    requires inside { square < length level.now.cells }
    requires room { length marks.now ≡ length level.now.cells }
    requires more { 1 < slice_index marks.now square }
    requires some { (d : Dir) × IsDown level.now (λ q. slice_index marks.now q) square d }
    ensures { IsFirstDown level.now (λ q. slice_index marks.now q) square result }
{
    let mark = marks[square.0 as usize] - 1;
    if leads_to(level, square, Dir::D, mark, marks) {
        return Dir::D;
    }
    if leads_to(level, square, Dir::L, mark, marks) {
        return Dir::L;
    }
    if leads_to(level, square, Dir::R, mark, marks) {
        return Dir::R;
    }
    Dir::U
}

// Whether the next square in a direction has this mark.
fn leads_to(level: &Level, square: Square, dir: Dir, mark: u16, marks: &[u16]) -> bool
    requires inside { square < length level.now.cells }
    requires mark { 0 < mark }
    ensures { IsTrue result ↔ (slice_index marks.now (next level.now square dir) ≡ mark) }
{
    let place = level.next(square, dir).0 as usize;
    place < marks.len() && marks[place] == mark
}
