ghost use Rattle.std.specs.Prelude.{◌≡◌, ◌⊎◌, ◌++◌, IfOk, IfErr, OnOk, OnErr, replicate};
ghost use Rattle.lurd.specs.Text.{IsText, HasTextFault, letter_byte, bytes_of};

use crate::fault::LurdFault;
use crate::item::{is_skipped, read_item};
use grid::{Dir, Letter, Moves};
use std::alloc::{AllocError, Global};

/// The moves that a text writes, or its first fault.
///
/// A text is letters `l`, `u`, `r`, `d`, `L`, `U`, `R`, `D`, each with an optional count before it, and blanks between
/// them: spaces, tabs, CR and LF. The grammar is in `specs/Text.antt`. Fails with the first [`LurdFault`] of the text,
/// or if out of memory.
#[tactic(auto, using(crate::proofs::Texts::one_piece_more))]
pub fn parse(alloc: Global, text: &[u8]) -> Result<Moves, LurdFault>
    ensures ok { IfOk result (λ moves. IsText text.now moves) }
    ensures err { IfErr result (λ fault. (fault ≡ LurdFault.OutOfMemory) ⊎ HasTextFault text.now fault) }
{
    let mut moves = Moves::new(alloc);
    let mut place = 0;
    while place < text.len() {
        if is_skipped(text[place]) {
            place += 1;
            continue;
        }
        let item = read_item(&text[place..], place + 1, moves.len())?;
        append(&mut moves, item.letter, item.times)?;
        place += item.len;
    }
    Ok(moves)
}

/// Appends a letter `times` times. After an error some of them may be appended.
fn append(moves: &mut Moves, letter: Letter, times: usize) -> Result<(), AllocError>
    ensures { OnOk result (moves.new ≡ moves.old ++ replicate times letter) }
{
    for _ in 0..times {
        moves.push(letter)?;
    }
    Ok(())
}

/// Appends one letter for each move, in upper case if it pushes a box, without counts and blanks. Fails only if out of
/// memory, and then leaves `out` unchanged.
pub fn write(moves: &Moves, out: &mut Vec<u8>) -> Result<(), AllocError>
    ensures ok { OnOk result (out.new.items ≡ out.old.items ++ bytes_of moves.now) }
    ensures err { OnErr result (out.new.items ≡ out.old.items) }
{
    let before = out.len();
    for letter in moves.as_slice() {
        if out.push(letter_byte(*letter)).is_err() {
            out.truncate(before);
            return Err(AllocError);
        }
    }
    Ok(())
}

/// The byte that writes a letter.
fn letter_byte(letter: Letter) -> u8
    ensures { result ≡ letter_byte letter }
{
    match (letter.push, letter.dir) {
        (false, Dir::D) => b'd',
        (false, Dir::L) => b'l',
        (false, Dir::R) => b'r',
        (false, Dir::U) => b'u',
        (true, Dir::D) => b'D',
        (true, Dir::L) => b'L',
        (true, Dir::R) => b'R',
        (true, Dir::U) => b'U',
    }
}
