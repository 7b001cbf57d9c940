//! The pushes after which a box may be held on both axes, for all boxes of a position at once, in grids of few words.
ghost use Rattle.std.specs.Prelude.{◌≡◌, ℕ, ◌<◌, ◌≤◌, IsTrue, [], length};
ghost use Rattle.grid.specs.declared.dir.Dir.TheVariants.{D, R};
ghost use Rattle.grid.specs.Board.{Board, next};
ghost use Rattle.grid.specs.Squares.{Squares, insert, remove};
ghost use Rattle.area.specs.Words.{squares_of};
ghost use Rattle.doom.specs.Deadlocks.{IsDead};
ghost use Rattle.doom.specs.Loose.{IsLoose};
ghost use Rattle.doom.specs.inside.Dangers.{AreDangers, TellsDanger, danger_word};
ghost use Rattle.doom.specs.inside.Holding.{AreFast, AreHolds};
ghost use Rattle.doom.specs.inside.Locking.{HaveRoom};

use crate::dead::Dead;
use crate::holds::Holds;
use crate::small::MOST_WORDS;
use area::Scratch;
use area::bits::{after, before};
use arrayvec::ArrayVec;
use grid::{Dir, Level, Square, WORD_BITS};

/// For each direction, a word with a bit for each square where a box that is pushed onto it in that direction may be
/// held on both axes: by walls, dead squares or other boxes.
#[derive(Clone, Copy, PartialEq, Eq, Default)]
pub(crate) struct Danger {
    pub(crate) d: u64,
    pub(crate) l: u64,
    pub(crate) r: u64,
    pub(crate) u: u64,
}

/// The pushes of a position after which the pushed box may be held on both axes. All other pushes onto squares that
/// are not dead leave their box loose, so they doom nothing and need no [`doomed_after`](crate::doomed_after): see
/// [`a_loose_box_dooms_nothing`](crate::laws::a_loose_box_dooms_nothing). One call of `find` serves all pushes of a
/// position.
#[derive(Drop)]
pub struct Dangers {
    // for the squares of the first few words; nothing is known about the others
    pub(crate) words: ArrayVec<Danger, MOST_WORDS>,
}

impl Dangers {
    /// Knows nothing: it spares no push.
    pub fn unknown() -> Dangers
        ensures { result.words.items ≡ [] }
    {
        Dangers {
            words: ArrayVec::new(),
        }
    }

    /// Replaces what it knows by the dangers around the boxes of the last flood. It covers the first 256 squares of a
    /// grid with fewer than `WORD_BITS` columns, takes a few operations for each of their words, and allocates no
    /// memory.
    pub fn find(&mut self, level: &Level, dead: &Dead, scratch: &Scratch)
        requires dead_of_level { dead.now ≡ level.now }
        requires room { scratch.now.size ≡ length level.now.cells }
        ensures { AreDangers level.now scratch.now.boxes self.new.words.items }
    {
        level.tell();
        let cols = level.cols();
        let boxes = scratch.boxes().as_words();
        self.words.clear();
        if cols >= WORD_BITS {
            return;
        }
        // known to be less than a word has bits, so that no word but the next is looked at
        find_words(dead.holds(), cols % WORD_BITS, boxes, &mut self.words);
    }

    /// Whether a box that is pushed onto the square in the direction is certainly not held on both axes there. If the
    /// square is not dead, such a push from an undoomed position dooms nothing.
    #[inline(always)]
    pub fn spare(&self, square: Square, dir: Dir) -> bool
        ensures { (board : Board) (boxes : Squares) (from : ℕ) → AreDangers board boxes self.now.words.items →
            IsTrue result → square ≡ next board from dir →
            from < length board.cells → ¬ (IsDead board square) →
            IsLoose board (insert (remove boxes from) square) square }
    {
        let index = square.0 as usize / WORD_BITS;
        if index >= self.words.len() {
            return false;
        }
        let word = word_for(self.words.as_slice()[index], dir);
        ((word >> (square.0 as usize % WORD_BITS)) & 1) != 1
    }
}

// The word for a direction.
#[inline(always)]
fn word_for(danger: Danger, dir: Dir) -> u64
    ensures { result ≡ danger_word dir danger }
{
    [danger.d, danger.l, danger.r, danger.u][dir as usize]
}

// Appends the dangers of the first words of a grid with `cols` columns.
fn find_words(holds: &Holds, cols: usize, boxes: &[u64], words: &mut ArrayVec<Danger, MOST_WORDS>)
    requires empty { length words.old.items ≡ 0 }
    requires holds { HaveRoom holds.now (length boxes.now) }
    ensures { (board : Board) → AreHolds board holds.now → board.cols ≡ cols → 1 ≤ cols →
        AreDangers board (squares_of boxes.now) words.new.items }
{
    let across = holds.across.as_words();
    let along = holds.along.as_words();
    for index in 0..boxes.len().min(MOST_WORDS) {
        let danger = danger_at(across, along, boxes, index, cols);
        words.push(danger);
    }
}

// The dangers of the squares of one word. The sets are the squares where walls or dead squares hold a box on each
// axis, and the boxes.
#[inline(always)]
fn danger_at(across: &[u64], along: &[u64], boxes: &[u64], index: usize, cols: usize) -> Danger
    requires index { index < length boxes.now }
    requires across { length boxes.now ≤ length across.now }
    requires along { length boxes.now ≤ length along.now }
    ensures { (board : Board) → AreFast board R across.now → AreFast board D along.now → board.cols ≡ cols → 1 ≤ cols →
        TellsDanger board (squares_of boxes.now) index result }
{
    let left = before(boxes, index, 1);
    let right = after(boxes, index, 1);
    let up = before(boxes, index, cols);
    let down = after(boxes, index, cols);
    let beside = (across[index] | left) | right;
    let over = (along[index] | up) | down;
    Danger {
        d: beside & (along[index] | down),
        l: over & (across[index] | left),
        r: over & (across[index] | right),
        u: beside & (along[index] | up),
    }
}
