ghost use Rattle.std.specs.Prelude.{◌≡◌, ℕ, ◌<◌, ◌≤◌, ◌↔◌, true, false, IfOk, length};
ghost use Rattle.std.specs.Borrow.{Lends, sem, Array, u64 as word};
ghost use Rattle.grid.specs.Board.{is_wall};
ghost use Rattle.grid.specs.Masks.{has_bit, word_count};
ghost use Rattle.grid.specs.Squares.{contains};
ghost use Rattle.area.specs.Groups.{HangsWith};
ghost use Rattle.area.specs.Words.{squares_of};
ghost use Rattle.area.specs.contracts.scratch.Scratch.{the_row};
ghost use Rattle.area.specs.inside.Detours.{IsLeastWith};

use crate::bits::{least_but, least_of};
use crate::groups::group;
use crate::set::SquareSet;
use grid::{Level, Square};
use std::alloc::{AllocError, Global};
use std::marker::Model;

/// The memory that floods and searches for walks work in: about five bytes a square, made once for all levels of
/// the same rows and columns.
///
/// A flood leaves two sets: the squares that it reaches, and the boxes. [`Scratch::reaches`] and
/// [`Scratch::has_box`] read them until another call uses the scratch. The spare sets serve what keeps the last
/// flood: another flood with its boxes, or tests of which boxes hold one another.
#[derive(Drop)]
pub struct Scratch {
    squares: usize,
    pub(crate) marks: Vec<u16>,
    pub(crate) queue: Vec<Square>,
    pub(crate) reached: SquareSet,
    pub(crate) boxes: SquareSet,
    pub(crate) spare: SquareSet,
    pub(crate) spare_boxes: SquareSet,
}

impl Model for Scratch {
    ghost use Rattle.area.specs.Reach.{Reach};

    ghost Value = { Reach };

    ghost use Rattle.area.specs.inside.ScratchView.{scratch_view, IsReady};

    ghost view = { scratch_view };

    ghost invariant = { IsReady };
}

impl Scratch {
    /// A scratch for levels with as many rows and columns as this one. It takes all memory that later calls need.
    ///
    /// # Errors
    ///
    /// [`AllocError`] if memory runs out.
    pub fn new(alloc: Global, level: &Level) -> Result<Scratch, AllocError>
        ensures { IfOk result (λ s. s.size ≡ length level.now.cells) }
    {
        level.tell();
        let squares = level.squares();
        Ok(Scratch {
            squares,
            marks: zeros(alloc, squares)?,
            queue: vec![in alloc; Square(0); squares]?,
            reached: SquareSet::none(alloc, squares)?,
            boxes: SquareSet::none(alloc, squares)?,
            spare: SquareSet::none(alloc, squares)?,
            spare_boxes: SquareSet::none(alloc, squares)?,
        })
    }

    /// The allocator of its memory.
    pub fn allocator(&self) -> Global {
        *self.queue.allocator()
    }

    /// Whether the last flood reached the square. Without meaning after another call that does not promise to keep
    /// the flood.
    pub fn reaches(&self, square: Square) -> bool
        ensures { result ≡ contains self.now.reached square }
    {
        self.reached.has(square)
    }

    /// Whether the last flood went round a box on the square. Without meaning after another call that does not
    /// promise to keep the flood.
    pub fn has_box(&self, square: Square) -> bool
        ensures { result ≡ contains self.now.boxes square }
    {
        self.boxes.has(square)
    }

    /// The boxes round which the last flood went, as a set. Without meaning after another call that does not
    /// promise to keep the flood.
    pub fn boxes(&self) -> &SquareSet
        ensures boxes { squares_of result.now ≡ self.now.boxes }
        ensures size { length result.now ≡ word_count self.now.size }
    {
        &self.boxes
    }

    /// Exactly these boxes, as words of bits for the caller to write. They are spare memory: the last flood stays,
    /// and the next call that floods again or asks for spare words overwrites them. For the crates above.
    pub fn boxes_aside(&mut self, boxes: &[Square]) -> &mut [u64]
        requires inside { (q : ℕ) → contains boxes.now q ≡ true → q < self.old.size }
        ensures* writes_back { sem 𝓛 (Lends the_row (Array word 0) self.entry result (λ w. self.old)) }
        ensures boxes { (q : ℕ) → has_bit result.now q ≡ contains boxes.now q }
        ensures size { length result.now ≡ word_count self.old.size }
    {
        self.spare.put_all(boxes);
        self.spare.as_words_mut()
    }

    /// `boxes_aside` for the boxes that are connected to the one on the square: a chain of boxes leads to each, every
    /// box beside the one before it.
    pub fn group_aside(&mut self, level: &Level, boxes: &[Square], square: Square) -> &mut [u64]
        requires clear { (q : ℕ) → contains boxes.now q ≡ true → is_wall level.now q ≡ false }
        requires there { contains boxes.now square ≡ true }
        requires room { self.old.size ≡ length level.now.cells }
        ensures* writes_back { sem 𝓛 (Lends the_row (Array word 0) self.entry result (λ w. self.old)) }
        ensures group { (q : ℕ) → (has_bit result.now q ≡ true) ↔ HangsWith level.now boxes.now square q }
        ensures size { length result.now ≡ word_count self.old.size }
    {
        group(
            level,
            boxes,
            square,
            &mut self.spare_boxes,
            &mut self.spare,
            &mut self.marks,
            &mut self.queue,
        );
        self.spare.as_words_mut()
    }

    // The least square that the last flood reached.
    pub(crate) fn least(&self) -> Square
        requires { (q : ℕ) × (contains self.now.reached q ≡ true) }
        ensures reached { contains self.now.reached result ≡ true }
        ensures least { (q : ℕ) → contains self.now.reached q ≡ true → result ≤ q }
    {
        least_of(self.reached.as_words())
    }

    // The least of the squares that the last flood reached except `but`, and of the square `more`.
    pub(crate) fn least_with(&self, but: Square, more: Square) -> Square
        ensures { IsLeastWith self.now.reached but more result }
    {
        least_but(self.reached.as_words(), but, more)
    }
}

// A mark of 0 for each square.
fn zeros(alloc: Global, squares: usize) -> Result<Vec<u16>, AllocError>
    ensures { IfOk result (λ v. length v.items ≡ squares) }
{
    Ok(vec![in alloc; 0; squares]?)
}
