ghost use Rattle.std.specs.Prelude.{◌≡◌, ℕ, ◌<◌, ◌≤◌, ◌∷◌, IfOk, IfErr, IfSome, IfNone, false, length, slice_index};
ghost use Rattle.std.specs.Prelude.{List};
ghost use Rattle.lurd.specs.inside.Item.{TakesItem, IsLetterByte};
ghost use Rattle.lurd.specs.Text.{BeginsWithLetter, FaultsAt, letter_byte, is_skipped};

use crate::fault::LurdFault;
use crate::limits::MAX_MOVES;
use counts::{digit_count, times};
use grid::{Dir, Letter};

/// A letter of a text with its count.
#[derive(Clone, Copy)]
pub(crate) struct Item {
    pub(crate) letter: Letter,
    /// How many times the letter is repeated.
    pub(crate) times: usize,
    /// How many bytes the letter and its count take.
    pub(crate) len: usize,
}

/// Reads the letter at the start of the bytes, and its count if it has one, after `moves` moves. `at` is the index of
/// the first byte in the text, for the fault.
#[tactic(auto, using(crate::proofs::Items::fault_of_item))]
pub(crate) fn read_item(bytes: &[u8], at: usize, moves: usize) -> Result<Item, LurdFault>
    requires some { 0 < length bytes.now }
    requires no_blank { is_skipped (slice_index bytes.now 0) ≡ false }
    requires few { moves ≤ MAX_MOVES }
    ensures ok { IfOk result (λ item. TakesItem moves bytes.now item.letter item.times item.len) }
    ensures err { IfErr result (λ fault. FaultsAt at moves bytes.now fault) }
{
    let digits = digit_count(bytes);
    let Some(letter) = first_letter(&bytes[digits..]) else {
        return Err(if digits == 0 {
            LurdFault::BadByte { at }
        } else {
            LurdFault::BadCount { at }
        });
    };
    let Some(times) = times(&bytes[..digits]) else {
        return Err(LurdFault::BadCount { at });
    };
    if times > MAX_MOVES - moves {
        return Err(LurdFault::TooManyMoves);
    }
    Ok(Item {
        letter,
        times,
        len: digits + 1,
    })
}

/// Space, tab, CR or LF.
pub(crate) fn is_skipped(byte: u8) -> bool
    ensures { result ≡ is_skipped byte }
{
    matches!(byte, b' ' | b'\t' | b'\r' | b'\n')
}

/// The letter that the bytes begin with.
fn first_letter(bytes: &[u8]) -> Option<Letter>
    ensures some { IfSome result (λ letter. (more : List ℕ) × (bytes.now ≡ letter_byte letter ∷ more)) }
    ensures none { IfNone result (¬ (BeginsWithLetter bytes.now)) }
{
    letter_of(*bytes.first()?)
}

/// The letter that a byte writes.
fn letter_of(byte: u8) -> Option<Letter>
    ensures some { IfSome result (λ letter. letter_byte letter ≡ byte) }
    ensures none { IfNone result (¬ (IsLetterByte byte)) }
{
    let (dir, push) = match byte {
        b'd' => (Dir::D, false),
        b'l' => (Dir::L, false),
        b'r' => (Dir::R, false),
        b'u' => (Dir::U, false),
        b'D' => (Dir::D, true),
        b'L' => (Dir::L, true),
        b'R' => (Dir::R, true),
        b'U' => (Dir::U, true),
        _ => return None,
    };
    Some(Letter { dir, push })
}
