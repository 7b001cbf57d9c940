ghost use Rattle.std.specs.Prelude.{◌≡◌, ℕ, ◌*◌, ◌<◌, ◌==◌, ◌&&◌, IfOk, if◌then◌else◌};
ghost use Rattle.std.specs.Int.{bit_at};
ghost use Rattle.grid.specs.RoomMask.{IsRoomMask};
ghost use Rattle.grid.specs.inside.MaskWords.{IsRoomAt};

use crate::board::Board;
use crate::limits::MAX_SQUARES;
use crate::square::Square;
use std::alloc::{AllocError, Global};

/// The number of squares for which a word has bits.
pub const WORD_BITS: usize = 64;

/// The squares of the player's room as bits of words.
pub(crate) fn room_mask_of(alloc: Global, board: &Board) -> Result<Vec<u64>, AllocError>
    ensures { IfOk result (λ v. IsRoomMask board.now v.items) }
{
    board.tell();
    let words = board.cells().len().div_ceil(WORD_BITS);
    let mut mask = Vec::with_capacity(alloc, words)?;
    for place in 0..words {
        mask.push(room_word(board, place))?;
    }
    Ok(mask)
}

// The squares of the player's room among those of one word.
fn room_word(board: &Board, place: usize) -> u64
    requires inside { WORD_BITS * place < MAX_SQUARES }
    ensures { IsRoomAt board.now place result }
{
    let first = WORD_BITS * place;
    let mut word = 0;
    for bit in 0..WORD_BITS {
        let square = Square((first + bit) as u16);
        word = with_bit(word, bit, board.in_room(square));
    }
    word
}

// The word, with one more bit if `set`.
#[inline(always)]
fn with_bit(word: u64, place: usize, set: bool) -> u64
    requires { place < WORD_BITS }
    ensures { (i : ℕ) → bit_at result i ≡ (if set && (i == place) then 1 else bit_at word i) }
{
    if set { word | (1 << place) } else { word }
}
