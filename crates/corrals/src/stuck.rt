//! Boxes that would hold one another after a push of one of them. A guess: it has no contract.

use crate::ground::Ground;
use crate::sketch::{Sketch, bit};
use grid::{Dir, MAX_BOXES, Square};

/// The most looks at boxes: one at each, and one more for each of the four boxes beside it that is taken out.
const MAX_LOOKS: usize = 5 * MAX_BOXES;

/// What holds a box on a square, for each axis: walls or dead squares, or each of these boxes, by its bit.
#[derive(Clone, Copy, Default)]
pub(crate) struct Holders {
    across: u64,
    along: u64,
    is_fast_across: bool,
    is_fast_along: bool,
}

impl Holders {
    /// What holds a box on a square of a sketched position.
    pub(crate) fn of(sketch: &Sketch, ground: &Ground<'_>, square: Square) -> Holders {
        if !ground.has(square) {
            return Holders::default();
        }
        let left = ground.next(square, Dir::L);
        let right = ground.next(square, Dir::R);
        let above = ground.next(square, Dir::U);
        let below = ground.next(square, Dir::D);
        Holders {
            across: sketch.box_bit(left) | sketch.box_bit(right),
            along: sketch.box_bit(above) | sketch.box_bit(below),
            is_fast_across: is_fast(ground, left, right),
            is_fast_along: is_fast(ground, above, below),
        }
    }

    // The boxes beside the box.
    fn boxes(&self) -> u64 {
        self.across | self.along
    }

    // Whether the box is held on both axes where these boxes are the only others.
    fn hold(&self, members: u64) -> bool {
        (self.is_fast_across || self.across & members != 0)
            && (self.is_fast_along || self.along & members != 0)
    }
}

impl Sketch {
    /// Whether a box pushed in the direction may freeze with some of these boxes.
    pub(crate) fn may_freeze(
        &self,
        ground: &Ground<'_>,
        boxes: u64,
        place: usize,
        dir: Dir,
    ) -> bool {
        let square = self.square(place);
        if !ground.has(square) {
            return false;
        }
        let ahead = ground.next(square, dir);
        let pushed = Holders::of(self, ground, ahead);
        let members = self.peel(boxes & !bit(place), &pushed);
        pushed.hold(members) && (members & self.off_goal() != 0 || !ground.is_goal(ahead))
    }

    // The boxes that are left after removing, again and again, one that neither the others nor the pushed box hold. It
    // ends early if these do not hold the pushed box.
    fn peel(&self, boxes: u64, pushed: &Holders) -> u64 {
        let mut members = boxes;
        let mut rest = boxes;
        for _ in 0..MAX_LOOKS {
            if rest == 0 || !pushed.hold(members) {
                break;
            }
            let place = rest.trailing_zeros() as usize;
            rest &= !bit(place);
            if !self.is_kept(members, pushed, place) {
                members &= !bit(place);
                rest |= self.holders(place).boxes() & members;
            }
        }
        members
    }

    // Whether others of the members hold a member, or the box that these hold does.
    fn is_kept(&self, members: u64, pushed: &Holders, place: usize) -> bool {
        let holders = self.holders(place);
        (holders.is_fast_across || holders.across & members != 0 || pushed.across & bit(place) != 0)
            && (holders.is_fast_along
                || holders.along & members != 0
                || pushed.along & bit(place) != 0)
    }
}

// Whether walls or dead squares hold a box between these squares without other boxes.
fn is_fast(ground: &Ground<'_>, one: Square, other: Square) -> bool {
    ground.is_wall(one) || ground.is_wall(other) || (ground.is_dead(one) && ground.is_dead(other))
}
