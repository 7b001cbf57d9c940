ghost use Rattle.std.specs.Prelude.{◌≡◌, ◌<◌, false, length, slice_index};
ghost use Rattle.grid.specs.Board.{is_wall};
ghost use Rattle.area.specs.inside.Spread.{IsBegun, IsLook, IsSpread, KeepsBlocked};

use grid::{Dir, Level, Square};

// A search for walks gives each square a mark: boxes have this one, the squares that it reaches have greater ones, and
// all others have 0.
pub(crate) const BOX_MARK: u16 = 1;

// Marks every square that a walk from a square reaches with `BOX_MARK + 1` plus the steps of a shortest one, round the
// boxes' marks.
pub(crate) fn spread(level: &Level, from: Square, marks: &mut [u16], queue: &mut [Square])
    requires begun { IsBegun level.now BOX_MARK from marks.old queue.old }
    ensures spread { IsSpread level.now BOX_MARK from (λ q. slice_index marks.new q) }
    ensures blocked { KeepsBlocked BOX_MARK marks.old marks.new }
{
    marks[from.0 as usize] = BOX_MARK + 1;
    queue[0] = from;
    let mut head = 0;
    let mut tail = 1;
    while head < tail {
        let square = queue[head];
        let mark = marks[square.0 as usize] + 1;
        for dir in Dir::ALL {
            let next = level.next(square, dir);
            tail = look(level, next, mark, marks, queue, tail);
        }
        head += 1;
    }
}

// Looks at a square: if the search has not reached it and neither wall nor box bars it, gives it the mark and
// appends it to the queue. Returns where the queue ends.
fn look(
    level: &Level,
    square: Square,
    mark: u16,
    marks: &mut [u16],
    queue: &mut [Square],
    tail: usize,
) -> usize
    requires room { length marks.old ≡ length level.now.cells }
    requires space { is_wall level.now square ≡ false → slice_index marks.old square < BOX_MARK →
        tail < length queue.old }
    ensures { IsLook level.now BOX_MARK square mark tail marks.old queue.old result marks.new queue.new }
{
    if level.is_wall(square) {
        return tail;
    }
    if marks[square.0 as usize] >= BOX_MARK {
        return tail;
    }
    marks[square.0 as usize] = mark;
    queue[tail] = square;
    tail + 1
}
