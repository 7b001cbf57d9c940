//! Makes the successors of a position in the slots of a parcel.
ghost use Rattle.std.specs.Prelude.{◌≡◌, ℕ, ◌+◌, ◌*◌, ◌<◌, ◌≤◌, ◌↔◌, ◌++◌, ◌∷◌, [], IsTrue, IsFalse, false, length};
ghost use Rattle.std.specs.Prelude.{sum, take};
ghost use Rattle.grid.specs.Board.{Scene, next};
ghost use Rattle.grid.specs.States.{FitsLevel};
ghost use Rattle.area.specs.Area.{IsNorm};
ghost use Rattle.doom.specs.Deadlocks.{Doomed, IsDead, Undoomed};
ghost use Rattle.doom.specs.Lost.{IsLost};
ghost use Rattle.successors.specs.ParcelView.{AreSuccessors, FitLevel, IsAppended};
ghost use Rattle.successors.specs.Expansion.{IsSuccessor, after_push};
ghost use Rattle.successors.specs.Capping.{uncapped};
ghost use Rattle.area.specs.Pushes.{ArePushes, CanPush};
ghost use Rattle.successors.specs.inside.Expanding.{AreFilled, IsReady};
ghost use Rattle.successors.specs.inside.Sums.{scene_sum};

use crate::limits::MAX_SUCCESSORS;
use crate::parcel::{Slots, Successor};
use crate::sums::box_sum;
use area::Scratch;
use arrayvec::ArrayVec;
use doom::{Dangers, Dead};
use grid::{Level, MAX_BOXES, Position, Push, Square};

// The number of places that are noted for the boxes of a position.
const PLACES: usize = 256;

/// A position to expand, and what its pushes are judged by: the level, its dead squares, and the squares where pushes
/// may freeze a box.
#[derive(Drop)]
pub(crate) struct ParentPosition<'a> {
    pub(crate) level: &'a Level,
    pub(crate) dead: &'a Dead,
    pub(crate) position: &'a Position,
    pub(crate) dangers: &'a Dangers,
    // set only if the position is known not to be doomed
    pub(crate) is_undoomed: bool,
}

/// Writes the undoomed positions that the pushes lead to over the first slots, and returns their number. The last
/// flood was that of the position.
pub(crate) fn successors_by(
    parent: &ParentPosition<'_>,
    pushes: &[Push],
    scratch: &mut Scratch,
    slots: &mut Slots,
) -> usize
    requires ready { IsReady parent.now scratch.old }
    requires undoomed { Undoomed parent.now.level.now parent.now.position.now }
    requires pushes { ArePushes parent.now.level.now parent.now.position.now pushes.now }
    requires bound { length pushes.now ≤ MAX_SUCCESSORS }
    ensures filled { AreFilled result slots.new }
    ensures successors { (layer : ℕ) →
        AreSuccessors (uncapped parent.now.level.now) layer parent.now.position.now
        (take result slots.new.successors.items) }
    ensures fits { FitLevel parent.now.level.now (take result slots.new.successors.items) }
    ensures kept { scratch.new ≡ scratch.old }
{
    let total = box_sum(parent.position);
    let places = places_of(parent.position.boxes());
    let mut count = 0;
    for push in pushes {
        let place = place_in(&places, push.square);
        count = append_successor(parent, total, place, *push, scratch, slots, count);
    }
    count
}

// For each box, its place under its square's number modulo `PLACES`. In a larger grid a box may have the place of
// another one, which only costs time.
fn places_of(boxes: &[Square]) -> [u8; PLACES]
    requires { length boxes.now ≤ MAX_BOXES }
{
    let mut places = [0; PLACES];
    for (place, square) in boxes.iter().enumerate() {
        places[square.0 as usize % PLACES] = place as u8;
    }
    places
}

// The place that is noted for a square.
#[inline(always)]
fn place_in(places: &[u8; PLACES], square: Square) -> usize {
    places[square.0 as usize % PLACES] as usize
}

// Writes the position after a push behind the first `count` slots, and returns the number of slots then in use, which
// stays the same exactly if that position is doomed. The last flood was that of the position before the push. `total`
// is the sum of its box squares, and `place` is where the pushed box may be found. The position is made in its slot, so
// that nothing is copied.
fn append_successor(
    parent: &ParentPosition<'_>,
    total: u32,
    place: usize,
    push: Push,
    scratch: &mut Scratch,
    slots: &mut Slots,
    count: usize,
) -> usize
    requires ready { IsReady parent.now scratch.old }
    requires undoomed { Undoomed parent.now.level.now parent.now.position.now }
    requires possible { CanPush parent.now.level.now parent.now.position.now push }
    requires total { total ≡ sum parent.now.position.now.boxes }
    requires small { total ≤ 65535 * MAX_BOXES }
    requires place { count < MAX_SUCCESSORS }
    requires filled { AreFilled count slots.old }
    ensures filled { AreFilled result slots.new }
    ensures bound { result ≤ count + 1 }
    ensures appended { IsAppended parent.now.level.now parent.now.position.now push
        (take count slots.old.successors.items) (take result slots.new.successors.items) }
    ensures kept { scratch.new ≡ scratch.old }
{
    let Push { square, dir } = push;
    have_slot(&mut slots.successors, count);
    let made = make_successor(
        parent,
        place,
        Push { square, dir },
        scratch,
        &mut slots.successors.as_mut_slice()[count],
    );
    if !made {
        return count;
    }
    let ahead = parent.level.next(square, dir);
    let sum = sum_after(
        total,
        square,
        ahead,
        &slots.successors.as_slice()[count].position,
    );
    put_sum(&mut slots.sums, count, sum);
    count + 1
}

// The sum of the squares of the position after a push. `total` is the sum of the boxes before it, one of which left a
// square for the one ahead.
fn sum_after(total: u32, left: Square, ahead: Square, after: &Position) -> u32
    requires moved { total + ahead ≡ sum after.now.boxes + left }
    requires small { total ≤ 65535 * MAX_BOXES }
    ensures { result ≡ scene_sum after.now }
{
    total + u32::from(ahead.0) - u32::from(left.0) + u32::from(after.player().0)
}

// Makes a slot behind the first `count`, if there is none yet.
fn have_slot(slots: &mut ArrayVec<Successor, MAX_SUCCESSORS>, count: usize)
    requires place { count < MAX_SUCCESSORS }
    requires filled { count ≤ length slots.old.items }
    ensures place { count < length slots.new.items }
    ensures kept { take count slots.new.items ≡ take count slots.old.items }
{
    if count == slots.len() {
        slots.push(Successor::default());
    }
}

// Writes a sum behind the first `count`.
fn put_sum(sums: &mut ArrayVec<u32, MAX_SUCCESSORS>, count: usize, sum: u32)
    requires place { count < MAX_SUCCESSORS }
    requires filled { count ≤ length sums.old.items }
    ensures { take (count + 1) sums.new.items ≡ take count sums.old.items ++ sum ∷ [] }
{
    if count == sums.len() {
        sums.push(sum);
    } else {
        sums.as_mut_slice()[count] = sum;
    }
}

// Writes a push, and the successor that it leads to, into a slot. Returns `false` exactly if it leads to none. The last
// flood was that of the position before the push.
fn make_successor(
    parent: &ParentPosition<'_>,
    place: usize,
    push: Push,
    scratch: &mut Scratch,
    slot: &mut Successor,
) -> bool
    requires ready { IsReady parent.now scratch.old }
    requires undoomed { Undoomed parent.now.level.now parent.now.position.now }
    requires possible { CanPush parent.now.level.now parent.now.position.now push }
    ensures push { slot.new.push ≡ push }
    ensures some { IsTrue result → IsSuccessor parent.now.level.now parent.now.position.now push slot.new.position
        × FitsLevel parent.now.level.now slot.new.position }
    ensures none { result ≡ false → (m : Scene) → ¬ (IsSuccessor parent.now.level.now parent.now.position.now push m) }
    ensures kept { scratch.new ≡ scratch.old }
{
    let Push { square, dir } = push;
    slot.push = Push { square, dir };
    let moved = &mut slot.position;
    make_after(parent, place, Push { square, dir }, scratch, moved)
}

/// Makes a position the normal one after a push and returns `true`, or returns `false` if the pushed box dooms it. The
/// last flood was that of the position before the push. `place` is where the pushed box may be found.
pub(crate) fn make_after(
    parent: &ParentPosition<'_>,
    place: usize,
    push: Push,
    scratch: &mut Scratch,
    moved: &mut Position,
) -> bool
    requires ready { IsReady parent.now scratch.old }
    requires possible { CanPush parent.now.level.now parent.now.position.now push }
    ensures made { IsTrue result →
        IsNorm parent.now.level.now (after_push parent.now.level.now parent.now.position.now push) moved.new
        × FitsLevel parent.now.level.now moved.new }
    ensures undoomed { Undoomed parent.now.level.now parent.now.position.now →
        IsTrue result ↔ Undoomed parent.now.level.now (after_push parent.now.level.now parent.now.position.now push) }
    ensures lost { IsFalse result →
        IsLost parent.now.level.now (after_push parent.now.level.now parent.now.position.now push) }
    ensures kept { scratch.new ≡ scratch.old }
{
    let Push { square, dir } = push;
    let level = parent.level;
    let position = parent.position;
    let ahead = level.next(square, dir);
    if parent.dead.is_dead(ahead) {
        return false;
    }
    moved.copy_from(position);
    moved.push_at(place, square, ahead);
    let doomed = is_doomed(parent, Push { square, dir }, ahead, moved, scratch);
    if doomed {
        return false;
    }
    area::normalise_after(level, position, Push { square, dir }, moved, scratch);
    true
}

// Whether the pushed box dooms the position after a push to a square that is not dead.
fn is_doomed(
    parent: &ParentPosition<'_>,
    push: Push,
    ahead: Square,
    moved: &Position,
    scratch: &mut Scratch,
) -> bool
    requires ready { IsReady parent.now scratch.old }
    requires possible { CanPush parent.now.level.now parent.now.position.now push }
    requires ahead { ahead ≡ next parent.now.level.now push.square push.dir }
    requires live { ¬ (IsDead parent.now.level.now (next parent.now.level.now push.square push.dir)) }
    requires moved { moved.now ≡ after_push parent.now.level.now parent.now.position.now push }
    ensures same { Undoomed parent.now.level.now parent.now.position.now →
        IsTrue result ↔
        Doomed parent.now.level.now (after_push parent.now.level.now parent.now.position.now push).boxes }
    ensures lost { IsTrue result →
        IsLost parent.now.level.now (after_push parent.now.level.now parent.now.position.now push) }
    ensures kept { scratch.new ≡ scratch.old }
{
    let Push { square, dir } = push;
    if parent.dangers.spare(ahead, dir) {
        return false;
    }
    if parent.is_undoomed {
        return doom::dooms(
            parent.level,
            parent.dead,
            moved,
            Push { square, dir },
            scratch,
        );
    }
    doom::doomed_after(
        parent.level,
        parent.dead,
        moved,
        Push { square, dir },
        scratch,
    )
}
