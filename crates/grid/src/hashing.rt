ghost use Rattle.std.specs.Prelude.{◌≡◌, ◌<◌, ◌++◌, [], ◌∷◌, fold, length};
ghost use Rattle.grid.specs.Hashing.{word_of, words_of, writes_of_squares};

use crate::position::Position;
use crate::square::Square;
use std::hash::{Hash, Hasher};

// Four squares are written at once, since a hasher's time depends on the number of writes.
impl Hash for Position {
    ghost use Rattle.grid.specs.Hashing.{writes_of, writes_alike};

    ghost hash_input = { writes_of };

    ghost respects_eq = { writes_alike };

    #[inline]
    fn hash<H: Hasher>(&self, state: &mut H) {
        hash_squares(self.boxes(), self.player(), state);
    }
}

// Writes the squares of boxes and of a player to a hasher, four at once, exactly as the hash of a position does.
#[inline]
fn hash_squares<H: Hasher>(mut boxes: &[Square], player: Square, state: &mut H)
    ensures { state.new ≡ fold H.write state.old (writes_of_squares boxes.now player) }
{
    while let [a, b, c, d, others @ ..] = boxes {
        state.write_u64(word_of(*a, *b, *c, *d));
        boxes = others;
    }
    state.write_u64(last_word(boxes, player));
}

// Up to three squares, and then the player.
#[inline]
fn last_word(squares: &[Square], player: Square) -> u64
    requires { length squares.now < 4 }
    ensures { result ∷ [] ≡ words_of squares.now player }
{
    match squares {
        [] => word_of(player, Square(0), Square(0), Square(0)),
        [a] => word_of(*a, player, Square(0), Square(0)),
        [a, b] => word_of(*a, *b, player, Square(0)),
        [a, b, c, ..] => word_of(*a, *b, *c, player),
    }
}

// Four squares in one word, the first one lowest.
#[inline]
fn word_of(a: Square, b: Square, c: Square, d: Square) -> u64
    ensures { result ≡ word_of a b c d }
{
    u64::from(a.0) | u64::from(b.0) << 16 | u64::from(c.0) << 32 | u64::from(d.0) << 48
}
