ghost use Rattle.std.specs.Prelude.{◌≡◌};
ghost use Rattle.judging.specs.Kinds.{is_in, kind_status, kind_word};

/// How tables, totals and statuses count a level.
#[derive(Clone, Copy)]
pub enum Kind {
    /// The solution at hand has the fewest pushes and, if they are wanted, the fewest moves.
    Optimal,
    /// It has the fewest pushes, and the search for the fewest moves ended at its limit.
    OptimalPushes,
    /// A solution is better than the given one.
    Beaten,
    /// A solution was found; the search for the fewest pushes ended at its limit.
    Found,
    /// The search for the fewest pushes ended at its limit.
    Open,
    Unsolvable,
    NoneWithin,
    /// The given solution solves the level, and nothing was searched.
    Solved,
    /// The given solution does not end with all boxes on goals.
    Unsolved,
    Blocked,
    WrongCase,
    BadText,
    Fault,
    TooManyBoxes,
    OutOfMemory,
    CannotRead,
    /// No solution is given.
    Missing,
}

/// The kinds that totals count together.
#[derive(Clone, Copy)]
pub enum Group {
    Optimal,
    Solved,
    NotSolved,
    Unsolved,
    Beaten,
    Open,
    NotJudged,
    Missing,
}

impl Kind {
    /// The exit status of one level.
    pub fn status(self) -> u8
        ensures { result ≡ kind_status self }
    {
        match self {
            Kind::Optimal | Kind::Solved | Kind::Missing => 0,
            Kind::CannotRead => 3,
            Kind::OptimalPushes | Kind::Found | Kind::Open => 4,
            Kind::OutOfMemory => 5,
            _ => 1,
        }
    }

    /// The verdict of a table.
    pub(crate) fn word(self) -> &'static [u8]
        ensures { result.now ≡ kind_word self }
    {
        match self {
            Kind::Optimal | Kind::OptimalPushes => b"optimal",
            Kind::Beaten => b"beaten",
            Kind::Found => b"found",
            Kind::Open => b"open",
            Kind::Unsolvable => b"unsolvable",
            Kind::NoneWithin => b"none_within",
            Kind::Solved => b"solved",
            Kind::Unsolved => b"unsolved",
            Kind::Blocked => b"blocked",
            Kind::WrongCase => b"wrong_case",
            Kind::BadText => b"bad_text",
            Kind::Fault => b"fault",
            Kind::TooManyBoxes => b"too_many_boxes",
            Kind::OutOfMemory => b"out_of_memory",
            Kind::CannotRead => b"cannot_read",
            Kind::Missing => b"",
        }
    }

    /// Whether the kind is one of a group.
    pub(crate) fn is_in(self, group: Group) -> bool
        ensures { result ≡ is_in group self }
    {
        match group {
            Group::Optimal => matches!(self, Kind::Optimal),
            Group::Solved => matches!(self, Kind::Solved),
            Group::NotSolved => self.status() > 0,
            Group::Unsolved => matches!(self, Kind::Unsolvable | Kind::NoneWithin),
            Group::Beaten => matches!(self, Kind::Beaten),
            Group::Open => matches!(
                self,
                Kind::OptimalPushes | Kind::Found | Kind::Open | Kind::OutOfMemory
            ),
            Group::NotJudged => matches!(
                self,
                Kind::Unsolved
                    | Kind::Blocked
                    | Kind::WrongCase
                    | Kind::BadText
                    | Kind::Fault
                    | Kind::TooManyBoxes
                    | Kind::CannotRead
            ),
            Group::Missing => matches!(self, Kind::Missing),
        }
    }
}
