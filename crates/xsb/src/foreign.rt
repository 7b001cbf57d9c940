//! Lines that look like boards of other characters.
ghost use Rattle.std.specs.Prelude.{◌≡◌, ℕ, ◌≤◌, ◌==◌, ◌||◌, List, filter, length, not, IfSome, true};
ghost use Rattle.xsb.specs.Foreign.{is_foreign, looks_foreign};
ghost use Rattle.xsb.specs.Places.{IsLineOf};
ghost use Rattle.xsb.specs.declared.limits.TheConstants.{MAX_FILE};

use crate::bytes::SPACE;
use crate::limits::MAX_FILE;
use crate::lines::Lines;

/// The fewest foreign bytes of a line that looks like a board.
const LEAST_FOREIGN: usize = 3;

/// Whether a byte is a wall of another program, or a part of a character beyond ASCII in UTF-8 or of one in UTF-16.
fn is_foreign(byte: u8) -> bool
    ensures { result ≡ is_foreign byte }
{
    matches!(
        byte,
        b'X' | b'x' | b'H' | b'h' | b'W' | b'w' | b'%' | b'=' | 0
    ) || byte > 127
}

/// The number of foreign bytes of a line.
fn foreign_count(line: &[u8]) -> usize
    ensures { result ≡ length (filter is_foreign line.now) }
{
    line.iter().filter(|byte| is_foreign(**byte)).count()
}

/// Whether a byte is any other, and no space.
fn is_own(byte: u8) -> bool
    ensures { result ≡ not (is_foreign byte || (byte == 32)) }
{
    !(is_foreign(byte) || byte == SPACE)
}

/// The number of other bytes of a line that are no spaces.
fn own_count(line: &[u8]) -> usize
    ensures { result ≡ length (filter (λ b. not (is_foreign b || (b == 32))) line.now) }
{
    line.iter().filter(|byte| is_own(**byte)).count()
}

/// Whether a line has at least three foreign bytes, and these are more than its other bytes that are no spaces.
fn looks_foreign(line: &[u8]) -> bool
    ensures { result ≡ looks_foreign line.now }
{
    let foreign = foreign_count(line);
    let own = own_count(line);
    foreign >= LEAST_FOREIGN && own < foreign
}

/// The number of the first line, from 1, of at most [`MAX_FILE`] bytes that looks like a board of other characters.
pub fn first_foreign(bytes: &[u8]) -> Option<u32>
    requires { length bytes.now ≤ MAX_FILE }
    ensures { IfSome result (λ n. (line : List ℕ) × IsLineOf bytes.now n line × (looks_foreign line ≡ true)) }
{
    let mut lines = Lines::of(bytes);
    'lines: loop {
        let Some(line) = lines.peek() else {
            return None;
        };
        if looks_foreign(line) {
            return Some(lines.number);
        }
        lines.skip();
    }
}
