ghost use Rattle.std.specs.Prelude.{◌≡◌, ◌↔◌, IsTrue, IsSome};

use crate::views::View;
use atomic_table::Seat;
use std::marker::Model;

/// Draws from a ledger. Contracts see its ledger, its place, the numbers that it drew, whether it found the ledger
/// empty ("spent out"), and the places that it found taken.
#[derive(Drop)]
pub struct Drawer {
    pub(crate) seat: Seat<(), View>,
    pub(crate) place: Option<u8>,
    pub(crate) spent: bool,
}

impl Model for Drawer {
    ghost use Rattle.claims.specs.Hands.{DrawerView};

    ghost Value = { DrawerView };

    ghost use Rattle.claims.specs.inside.Fields.{drawer_view, IsSoundDrawer};

    ghost view = { drawer_view };

    ghost invariant = { IsSoundDrawer };
}

impl Drawer {
    /// Whether it has a place.
    pub fn has_place(&self) -> bool
        ensures { IsTrue result ↔ IsSome self.now.hand.place }
    {
        self.place.is_some()
    }
}
