//! The remark on a level: what is wrong with it.
ghost use Rattle.std.specs.Prelude.{◌≡◌};
ghost use Rattle.sokopar.specs.Explaining.{is_sound, is_unsolvable};

use grid::Square;

/// Why the box or the goal on a square makes a level unsolvable.
#[derive(Clone, Copy)]
pub(crate) enum Plight {
    /// The player never gets to the box, which is off goal.
    Unreached,
    /// No box gets to the goal, which has none.
    Unfilled,
    /// The box is on a dead square.
    OnDead,
}

/// The remark on a level: what is wrong with it.
#[derive(Drop)]
pub(crate) enum Remark {
    /// It has no player or several: the squares of all.
    Players(Vec<Square>),
    /// It has no box, or not as many as goals: the squares of all boxes and goals.
    Unequal {
        boxes: Vec<Square>,
        goals: Vec<Square>,
    },
    /// The player reaches this square at the edge of the grid.
    Exit(Square),
    /// All boxes are on goals.
    Solved,
    /// The boxes or goals on these squares make it unsolvable.
    Lost {
        plight: Plight,
        squares: Vec<Square>,
    },
    /// Some of these boxes are frozen, at least one of them off goal.
    Frozen(Vec<Square>),
    /// No step is possible.
    Stuck,
    /// Some boxes get to fewer goals than they are.
    Unmatched,
    /// Nothing.
    Sound,
}

impl Remark {
    /// Whether nothing is found.
    pub(crate) fn is_sound(&self) -> bool
        ensures { result ≡ is_sound self.now }
    {
        matches!(self, Remark::Sound)
    }

    /// Whether no play solves the level.
    pub(crate) fn is_unsolvable(&self) -> bool
        ensures { result ≡ is_unsolvable self.now }
    {
        match self {
            Remark::Lost { .. } | Remark::Frozen(_) | Remark::Stuck | Remark::Unmatched => true,
            _ => false,
        }
    }
}
