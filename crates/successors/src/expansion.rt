ghost use Rattle.std.specs.Prelude.{◌≡◌, MatchOption, None, length, take};
ghost use Rattle.successors.specs.ParcelView.{AreSuccessors, IsParcel, IsRanked};
ghost use Rattle.successors.specs.Capping.{capped};
ghost use Rattle.successors.specs.inside.ParcelInside.{parcel_of};
ghost use Rattle.successors.specs.inside.Expanding.{AreFilled};

use crate::dealing::Deal;
use crate::parcel::{Buffers, Parcel};
use crate::problem::Problem;
use crate::pruning::keep_admitted;
use crate::pushing::{ParentPosition, successors_by};
use area::Scratch;
use doom::{Bound, Dead};
use grid::{Level, Position};

/// A position to expand: the position with this rank in this layer of a level, under a cap or without one.
#[derive(Drop)]
pub struct RankedPosition {
    pub cap: Option<u32>,
    pub layer: u64,
    pub rank: u64,
    pub position: Position,
}

impl<'a> Parcel<'a> {
    /// The undoomed successors of a position in the order of their pushes. Under a cap, only those from which the
    /// level's bound allows a solution within the cap. A cap needs the bound. Takes no memory.
    pub fn of(
        level: &'a Level,
        ranked: &RankedPosition,
        dead: &Dead,
        bound: Option<&Bound>,
        scratch: &mut Scratch,
    ) -> Parcel<'a>
        requires ranked { IsRanked level.now ranked.now }
        requires dead_of_level { dead.now ≡ level.now }
        requires bound_of_level { MatchOption bound (ranked.now.cap ≡ None) (λ b. b.now ≡ level.now) }
        requires room { scratch.old.size ≡ length level.now.cells }
        ensures of { (result.level ≡ capped level.now ranked.now.cap) × (result.layer ≡ ranked.now.layer) ×
            (result.rank ≡ ranked.now.rank) }
        ensures successors { AreSuccessors (capped level.now ranked.now.cap) ranked.now.layer ranked.now.position
            result.successors }
        ensures size { scratch.new.size ≡ scratch.old.size }
    {
        let mut parcel = Parcel {
            level,
            cap: ranked.cap,
            layer: ranked.layer,
            rank: ranked.rank,
            buffers: Buffers::new(),
            count: 0,
            deal: Deal::none(),
        };
        parcel.count = successors_of(level, ranked, dead, bound, scratch, &mut parcel.buffers);
        parcel
    }

    /// Fills the parcel with what [`Parcel::of`] gives for a position of a problem. Takes no memory.
    pub fn fill(&mut self, problem: &'a Problem, ranked: &RankedPosition, scratch: &mut Scratch)
        requires ranked { IsRanked problem.now.board ranked.now }
        requires cap { ranked.now.cap ≡ problem.now.cap }
        requires room { scratch.old.size ≡ length problem.now.board.cells }
        ensures of { (self.new.level ≡ problem.now) × (self.new.layer ≡ ranked.now.layer) ×
            (self.new.rank ≡ ranked.now.rank) }
        ensures successors { AreSuccessors problem.now ranked.now.layer ranked.now.position self.new.successors }
        ensures size { scratch.new.size ≡ scratch.old.size }
    {
        self.level = problem.level();
        self.cap = ranked.cap;
        self.layer = ranked.layer;
        self.rank = ranked.rank;
        // the new successors are not dealt yet
        self.deal.shares = 0;
        self.count = successors_of(
            problem.level(),
            ranked,
            problem.dead(),
            problem.bound().as_ref(),
            scratch,
            &mut self.buffers,
        );
    }
}

// Writes the admitted undoomed successors of a position over the first slots, in the order of their pushes, and
// returns their number. It does not clear what the slots and the pushes held, so its work depends on the number of
// successors alone.
fn successors_of(
    level: &Level,
    ranked: &RankedPosition,
    dead: &Dead,
    bound: Option<&Bound>,
    scratch: &mut Scratch,
    buffers: &mut Buffers,
) -> usize
    requires ranked { IsRanked level.now ranked.now }
    requires dead_of_level { dead.now ≡ level.now }
    requires bound_of_level { MatchOption bound (ranked.now.cap ≡ None) (λ b. b.now ≡ level.now) }
    requires room { scratch.old.size ≡ length level.now.cells }
    ensures filled { AreFilled result buffers.new.slots }
    ensures parcel { IsParcel
        (parcel_of (capped level.now ranked.now.cap) ranked.now.layer ranked.now.rank buffers.new.slots.successors.items
        result) }
    ensures successors { AreSuccessors (capped level.now ranked.now.cap) ranked.now.layer ranked.now.position
        (take result buffers.new.slots.successors.items) }
    ensures size { scratch.new.size ≡ scratch.old.size }
{
    let position = &ranked.position;
    area::possible_pushes(level, position, scratch, &mut buffers.pushes);
    buffers.dangers.find(level, dead, scratch);
    let parent = ParentPosition {
        level,
        dead,
        position,
        dangers: &buffers.dangers,
        is_undoomed: true,
    };
    let count = successors_by(
        &parent,
        buffers.pushes.as_slice(),
        scratch,
        &mut buffers.slots,
    );
    let Some(most) = ranked.cap else {
        return count;
    };
    let Some(bound) = bound else {
        return count;
    };
    keep_admitted(
        bound,
        most,
        ranked.layer,
        buffers.slots.successors.as_mut_slice(),
        buffers.slots.sums.as_mut_slice(),
        count,
    )
}
