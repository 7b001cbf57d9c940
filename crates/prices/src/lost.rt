//! Boxes that can come only to marked goals: if they are more than the marks, they cannot all come to goals.
ghost use Rattle.std.specs.Prelude.{◌≡◌, ◌≤◌, cond, length};
ghost use Rattle.prices.specs.Prices.{sum_over};
ghost use Rattle.prices.specs.inside.Goals.{keeps_to, mark_count, marks_all};

use crate::pulls::NEVER;
use crate::table::DistanceTable;
use grid::{MAX_BOXES, Square};

impl DistanceTable {
    /// The number of boxes that can come only to marked goals.
    pub(crate) fn keep_to(&self, marks: &[bool], boxes: &[Square], player: Square) -> usize
        requires { length boxes.now ≤ MAX_BOXES }
        ensures { result ≡ sum_over (λ b. cond (keeps_to self.now marks.now b player) 1 0) boxes.now }
    {
        let mut count = 0;
        for square in boxes {
            if self.keeps_to(marks, *square, player) {
                count += 1;
            }
        }
        count
    }

    // Whether a box on the square can come only to marked goals.
    fn keeps_to(&self, marks: &[bool], square: Square, player: Square) -> bool
        ensures { result ≡ keeps_to self.now marks.now square player }
    {
        let row = self.row(square, player);
        row.len() == marks.len() && marks_all(row, marks)
    }
}

// Whether each distance without a mark is `NEVER` or more.
fn marks_all(row: &[u32], marks: &[bool]) -> bool
    requires { length row.now ≡ length marks.now }
    ensures { result ≡ marks_all row.now marks.now }
{
    for (place, far) in row.iter().enumerate() {
        let kept = marks[place] | (*far >= NEVER);
        if !kept {
            return false;
        }
    }
    true
}

/// The number of marks.
pub(crate) fn mark_count(marks: &[bool]) -> usize
    ensures { result ≡ mark_count marks.now }
{
    let mut count = 0;
    for mark in marks {
        if *mark {
            count += 1;
        }
    }
    count
}
