ghost use Rattle.std.specs.Prelude.{◌≡◌, ◌<◌, suc, [], All, IfOk, IsNone, None};
ghost use Rattle.claims.specs.Hands.{DrawerView, AreApart, Drew, Enrolled, newcomer};
ghost use Rattle.claims.specs.Audit.{AreAudited, hands_of};
ghost use Rattle.claims.specs.inside.Plays.{MayAddOne, draws, one_more};
ghost use Rattle.claims.specs.inside.Views.{view_of};

use crate::drawer::Drawer;
use crate::steps::{Audits, Compares, Drawn, Draws, Enrols, Gathers, Meeting, Newcomer};
use crate::views::View;
use atomic_table::{Seat, Shared, Table};
use std::alloc::{AllocError, Global};
use std::marker::Model;

/// The number of places of a ledger: the greatest number of workers.
pub const PLACES: u8 = 64;

// the words of a ledger: the next number to draw, and one word for each place
const WORDS: usize = 1 + PLACES as usize;

// the index of the next number; the places come after it
const NEXT: usize = 0;

/// A ledger of the numbers below its length. Each is drawn once, by any number of threads, without locks.
#[derive(Drop)]
pub struct Ledger {
    table: Table<(), View, u32, Drawn, Global>,
    len: u32,
}

impl Model for Ledger {
    ghost use Rattle.claims.specs.Hands.{LedgerView};

    ghost Value = { LedgerView };

    ghost use Rattle.claims.specs.inside.Fields.{ledger_view, IsSoundLedger};

    ghost view = { ledger_view };

    ghost invariant = { IsSoundLedger };
}

impl Ledger {
    /// A ledger of the numbers below `len`, none of them drawn, and a drawer without a place. Fails only if out of
    /// memory.
    pub fn new(alloc: Global, len: u32) -> Result<(Ledger, Drawer), AllocError>
        ensures { IfOk result (λ made. (made.0.len ≡ len) × (made.1 ≡ newcomer made.0)) }
    {
        let (table, seat) = Table::of_words(alloc, &[0; WORDS], &len)?;
        let drawer = Drawer {
            seat,
            place: None,
            spent: false,
        };
        Ok((Ledger { table, len }, drawer))
    }

    /// Splits a drawer: returns it, and one more without a place. The drawer is of this ledger and has no place.
    pub fn split(&self, drawer: Drawer) -> (Drawer, Drawer)
        requires { (drawer.ledger ≡ self.now) × IsNone drawer.hand.place }
        ensures { (result.0 ≡ drawer) × (result.1 ≡ newcomer self.now) }
    {
        let mut kept = drawer;
        let seat = self.table.shared.split_seat::<Newcomer>(&mut kept.seat);
        let other = Drawer {
            seat,
            place: None,
            spent: false,
        };
        (kept, other)
    }

    /// Gives the drawer a place, and returns `true`. It returns `false` and gives none if the drawer has a place, if
    /// the place is not below [`PLACES`], or if the place is taken. Does not block.
    pub fn enrol(&self, drawer: &mut Drawer, place: u8) -> bool
        requires { drawer.old.ledger ≡ self.now }
        ensures ledger { drawer.new.ledger ≡ self.now }
        ensures hand { Enrolled place drawer.old.hand result drawer.new.hand }
    {
        if drawer.place.is_some() || place >= PLACES {
            return false;
        }
        let word = 1 + usize::from(place);
        let is_free = self.table.shared.swap::<Enrols>(&mut drawer.seat, word, 1) == 0;
        if is_free {
            drawer.place = Some(place);
        }
        is_free
    }

    /// Draws the next number by one atomic addition. It returns `None` if the drawer has no place or is spent out, or
    /// if no number is left; the drawer is then spent out. Does not block.
    pub fn draw(&self, drawer: &mut Drawer) -> Option<u32>
        requires { drawer.old.ledger ≡ self.now }
        ensures ledger { drawer.new.ledger ≡ self.now }
        ensures hand { Drew self.now.len drawer.old.hand result drawer.new.hand }
    {
        if drawer.place.is_none() || drawer.spent {
            return None;
        }
        let found = draw_next(&self.table.shared, &mut drawer.seat);
        if found < u64::from(self.len) {
            Some(found as u32)
        } else {
            drawer.spent = true;
            None
        }
    }

    /// Returns both drawers unchanged and in order, and proves that they have no number and no place in common.
    pub fn meet(&self, drawer: Drawer, other: Drawer) -> (Drawer, Drawer)
        requires { (drawer.ledger ≡ self.now) × (other.ledger ≡ self.now) }
        ensures same { (result.0 ≡ drawer) × (result.1 ≡ other) }
        ensures apart { AreApart drawer.hand other.hand }
    {
        let Drawer {
            mut seat,
            place,
            spent,
        } = drawer;
        let Drawer {
            seat: other_seat,
            place: other_place,
            spent: other_spent,
        } = other;
        let shared = &self.table.shared;
        shared.join_seat::<Meeting>(&mut seat, other_seat);
        shared.load::<Compares>(&mut seat, NEXT);
        let other_seat = shared.split_seat::<Meeting>(&mut seat);
        let drawer = Drawer { seat, place, spent };
        let other = Drawer {
            seat: other_seat,
            place: other_place,
            spent: other_spent,
        };
        (drawer, other)
    }

    /// Takes drawers for good, at any moment, and returns the next number to draw. Their lists and those of the other
    /// drawers keep the rule of the ledger. If they have all places, each number below the next one and below the
    /// length is in exactly one of their lists.
    #[tactic(auto, using(crate::proofs::Auditing::of_table, crate::proofs::Auditing::audited))]
    pub fn audit(&self, drawers: Vec<Drawer>) -> u64
        requires { All (λ (d : DrawerView). d.ledger ≡ self.now) drawers.items }
        ensures { AreAudited self.now.len result (hands_of drawers.items) }
    {
        let shared = &self.table.shared;
        let mut seat = gathered(shared, drawers);
        shared.load::<Audits>(&mut seat, NEXT)
    }
}

// The next number, by the one step of a draw.
fn draw_next(shared: &Shared<(), View, u32, Drawn>, seat: &mut Seat<(), View>) -> u64
    requires seat { (seat.old.table_id ≡ shared.now.table_id) × (0 < shared.now.table_id.words) }
    requires step { MayAddOne shared.now.key shared.now.table_id.slots seat.old.id seat.old.me }
    ensures seat { (seat.new.table_id ≡ seat.old.table_id) × (seat.new.id ≡ seat.old.id) }
    ensures step { draws (one_more shared.now.table_id.slots) seat.old.me result seat.new.me }
{
    shared.fetch_add::<Draws>(seat, NEXT, 1)
}

// One seat with the hands of all drawers, in order.
#[tactic(auto, using(crate::proofs::Auditing::gathered_more))]
fn gathered(shared: &Shared<(), View, u32, Drawn>, drawers: Vec<Drawer>) -> Seat<(), View>
    requires words { shared.now.table_id.words ≡ suc PLACES }
    requires drawers { All (λ (d : DrawerView). (d.ledger.table ≡ shared.now.table_id) ×
        (d.ledger.len ≡ shared.now.key)) drawers.items }
    ensures table { result.table_id ≡ shared.now.table_id }
    ensures hands { result.me ≡ (view_of shared.now.key (hands_of drawers.items), []) }
{
    let (_, mut seat) = shared.load_new_seat::<Gathers>(NEXT);
    for drawer in drawers {
        let Drawer { seat: other, .. } = drawer;
        shared.join_seat::<Meeting>(&mut seat, other);
    }
    seat
}
