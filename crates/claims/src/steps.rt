//! The rule of a ledger's table, and what each kind of step proves to the seat that makes it.

use crate::views::View;
use atomic_table::{Join, Play, Split, TableRule};

/// The rule: each number is drawn once and none is left out.
pub(crate) struct Drawn;

impl TableRule<(), View, u32> for Drawn {
    ghost use Rattle.claims.specs.Rule.{holds, first};

    ghost holds = { holds };

    ghost first = { first };
}

/// A swap of a place's word.
pub(crate) struct Enrols;

impl Play<(), View> for Enrols {
    ghost use Rattle.claims.specs.inside.Plays.{enrols};

    ghost then = { enrols };
}

/// An addition to the word of the next number.
pub(crate) struct Draws;

impl Play<(), View> for Draws {
    ghost use Rattle.claims.specs.inside.Plays.{draws};

    ghost then = { draws };
}

/// A load that compares the two hands of a meeting.
pub(crate) struct Compares;

impl Play<(), View> for Compares {
    ghost use Rattle.claims.specs.inside.Plays.{compares};

    ghost then = { compares };
}

/// A load that makes a seat with no hands, for an audit.
pub(crate) struct Gathers;

impl Play<(), View> for Gathers {
    ghost use Rattle.claims.specs.inside.Plays.{gathers};

    ghost then = { gathers };
}

/// A load that audits the hands of a seat.
pub(crate) struct Audits;

impl Play<(), View> for Audits {
    ghost use Rattle.claims.specs.inside.Plays.{audits};

    ghost then = { audits };
}

/// A new drawer beside one that stays as it is.
pub(crate) struct Newcomer;

impl Split<View> for Newcomer {
    ghost use Rattle.claims.specs.inside.Views.{beside};

    ghost left = { λ v. v };

    ghost right = { beside };
}

/// Two drawers meet in one seat, and part again.
pub(crate) struct Meeting;

impl Join<View> for Meeting {
    ghost use Rattle.claims.specs.inside.Views.{joined, spent_view};

    ghost both = { joined };

    ghost spent = { spent_view };
}

impl Split<View> for Meeting {
    ghost use Rattle.claims.specs.inside.Views.{first_part, other_part};

    ghost left = { first_part };

    ghost right = { other_part };
}
