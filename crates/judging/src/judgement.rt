ghost use Rattle.std.specs.Prelude.{◌≡◌};
ghost use Rattle.judging.specs.Kinds.{best_of, bound_of, claim_kind, claim_limit, claim_proved, given_of, has_fewest};
ghost use Rattle.judging.specs.Kinds.{kind_by, kind_of, limit_of, proved_of};

use crate::kind::Kind;
use grid::{LevelFault, Moves};
use lurd::{LurdFault, Verdict};

/// The settings of a search. With a cap it looks only for solutions with at most that many pushes. It ends undecided once
/// it has found more positions than the limit. With `moves` a second search looks for the fewest moves among the
/// solutions with the fewest pushes. Its limit is the same number, of positions with the exact square of the player. Each
/// of the two also ends undecided once it has run as many seconds as `seconds` says.
#[derive(Clone, Copy, PartialEq, Eq, Debug)]
pub struct Settings {
    pub cap: Option<u32>,
    pub limit: u32,
    pub moves: bool,
    pub seconds: Option<u32>,
}

/// The numbers of pushes and moves of a solution.
#[derive(Clone, Copy)]
pub struct Counts {
    pub pushes: usize,
    pub moves: usize,
}

/// A solution that was found.
#[derive(Drop)]
pub struct Solution {
    pub letters: Moves,
    pub counts: Counts,
}

/// What is known of the moves of a solution with the fewest pushes.
#[derive(Clone, Copy)]
pub enum MovesClaim {
    /// They are only counted.
    Counted,
    /// No solution with as few pushes has fewer moves.
    Fewest,
    /// The search for the fewest moves ended at its limit.
    Open,
}

/// What a search that ended at its limit has reached.
#[derive(Clone, Copy)]
pub enum LimitKind {
    /// The limit of positions.
    Positions,
    /// The limit of seconds.
    Seconds,
}

/// What is known of the solutions of a level. The solution at hand is the one that was found, else the given one.
#[derive(Drop)]
pub struct Known {
    /// The numbers of the given solution.
    pub given: Option<Counts>,
    /// A solution that is better than the given one.
    pub found: Option<Solution>,
    /// Every solution has at least this many pushes.
    pub at_least: usize,
    /// What is known of the moves if the solution at hand has no more pushes than that.
    pub claim: MovesClaim,
    /// The limit that the last search reached, if it ended at one.
    pub limit: LimitKind,
}

/// What a report says of a level, and of its given solution if there is one.
#[derive(Drop)]
pub enum Judgement {
    /// A search ended.
    Searched(Known),
    /// Every solution has more pushes than the cap.
    NoneWithin,
    /// The level has no solution.
    Unsolvable,
    /// The level has more boxes than [`MAX_BOXES`](grid::MAX_BOXES); the given solution solves it.
    TooManyBoxes(Option<Counts>),
    /// Memory ran out. Every solution has at least this many pushes; the given one solves the level.
    OutOfMemory {
        given: Option<Counts>,
        at_least: Option<usize>,
    },
    /// The given solution was replayed, and nothing was searched.
    Replayed(Verdict),
    /// The given solution is no text of moves.
    BadText(LurdFault),
    /// The board is no level.
    Faulty(LevelFault),
    /// The given solution cannot be read.
    CannotRead,
    /// No solution is given, and none is looked for.
    Missing,
}

impl MovesClaim {
    /// The kind of a solution with the fewest pushes.
    fn kind(self) -> Kind
        ensures { result ≡ claim_kind self }
    {
        match self {
            MovesClaim::Counted | MovesClaim::Fewest => Kind::Optimal,
            MovesClaim::Open => Kind::OptimalPushes,
        }
    }

    /// What is proved of a solution with the fewest pushes.
    fn proved(self) -> &'static [u8]
        ensures { result.now ≡ claim_proved self }
    {
        match self {
            MovesClaim::Fewest => b"pushes and moves",
            MovesClaim::Counted | MovesClaim::Open => b"pushes",
        }
    }

    /// The limit, if the search for the fewest moves ended at it.
    fn limit(self, limit: LimitKind) -> Option<LimitKind>
        ensures { result ≡ claim_limit limit self }
    {
        match self {
            MovesClaim::Open => Some(limit),
            MovesClaim::Counted | MovesClaim::Fewest => None,
        }
    }
}

impl Known {
    /// Whether the solution at hand has no more pushes than the bound.
    fn has_fewest(&self) -> bool
        ensures { result ≡ has_fewest self.now }
    {
        match (&self.given, &self.found) {
            (_, Some(found)) => found.counts.pushes == self.at_least,
            (Some(given), None) => given.pushes == self.at_least,
            (None, None) => false,
        }
    }

    /// The kind of what is known.
    fn kind(&self) -> Kind
        ensures { result ≡ kind_by (has_fewest self.now) self.now.claim self.now.given self.now.found }
    {
        match (&self.given, &self.found) {
            (Some(_), Some(_)) => Kind::Beaten,
            _ if self.has_fewest() => self.claim.kind(),
            (_, Some(_)) => Kind::Found,
            (_, None) => Kind::Open,
        }
    }
}

impl Judgement {
    /// How tables and totals count it.
    pub fn kind(&self) -> Kind
        ensures { result ≡ kind_of self.now }
    {
        match self {
            Judgement::Searched(known) => known.kind(),
            Judgement::NoneWithin => Kind::NoneWithin,
            Judgement::Unsolvable => Kind::Unsolvable,
            Judgement::TooManyBoxes(_) => Kind::TooManyBoxes,
            Judgement::OutOfMemory { .. } => Kind::OutOfMemory,
            Judgement::Replayed(Verdict::Solved { .. }) => Kind::Solved,
            Judgement::Replayed(Verdict::Unsolved { .. }) => Kind::Unsolved,
            Judgement::Replayed(Verdict::Blocked { .. }) => Kind::Blocked,
            Judgement::Replayed(Verdict::WrongCase { .. }) => Kind::WrongCase,
            Judgement::BadText(_) => Kind::BadText,
            Judgement::Faulty(_) => Kind::Fault,
            Judgement::CannotRead => Kind::CannotRead,
            Judgement::Missing => Kind::Missing,
        }
    }

    /// The numbers of the given solution, if it solves the level.
    pub fn given(&self) -> Option<Counts>
        ensures { result ≡ given_of self.now }
    {
        match self {
            Judgement::Searched(known) => known.given,
            Judgement::TooManyBoxes(given) => *given,
            Judgement::OutOfMemory { given, .. } => *given,
            Judgement::Replayed(Verdict::Solved { pushes, moves }) => Some(Counts {
                pushes: *pushes,
                moves: *moves,
            }),
            _ => None,
        }
    }

    /// The numbers of the solution at hand.
    pub fn best(&self) -> Option<Counts>
        ensures { result ≡ best_of self.now }
    {
        match self {
            Judgement::Searched(
                Known {
                    found: Some(found),
                    ..
                },
            ) => Some(found.counts),
            _ => self.given(),
        }
    }

    /// What is proved of the numbers of the solution at hand.
    pub(crate) fn proved(&self) -> &'static [u8]
        ensures { result.now ≡ proved_of self.now }
    {
        match self {
            Judgement::Searched(known) if known.has_fewest() => known.claim.proved(),
            _ => b"",
        }
    }

    /// The bound on the pushes of every solution, unless the solution at hand has as few.
    pub(crate) fn bound(&self) -> Option<usize>
        ensures { result ≡ bound_of self.now }
    {
        match self {
            Judgement::Searched(known) if known.has_fewest() => None,
            Judgement::Searched(known) => Some(known.at_least),
            Judgement::OutOfMemory { at_least, .. } => *at_least,
            _ => None,
        }
    }

    /// The limit, if a search ended at it.
    pub(crate) fn limit(&self) -> Option<LimitKind>
        ensures { result ≡ limit_of self.now }
    {
        match self {
            Judgement::Searched(known) if known.has_fewest() => known.claim.limit(known.limit),
            Judgement::Searched(known) => Some(known.limit),
            _ => None,
        }
    }
}
