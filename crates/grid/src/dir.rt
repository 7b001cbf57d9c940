ghost use Rattle.std.specs.Prelude.{◌≡◌};
ghost use Rattle.grid.specs.Board.{dir_number, opposite};

/// A direction: down, left, right or up. The order is that of the letters `d`, `l`, `r`, `u`.
#[derive(Clone, Copy, PartialEq, Eq, PartialOrd, Ord, Hash, Default, Debug)]
pub enum Dir {
    #[default]
    D,
    L,
    R,
    U,
}

impl Dir {
    /// The four directions, in order.
    pub const ALL: [Dir; 4] = [Dir::D, Dir::L, Dir::R, Dir::U];

    /// The direction back.
    pub fn opposite(self) -> Dir
        ensures { result ≡ opposite self }
    {
        match self {
            Dir::D => Dir::U,
            Dir::L => Dir::R,
            Dir::R => Dir::L,
            Dir::U => Dir::D,
        }
    }

    // The direction's index among the four.
    #[inline(always)]
    pub(crate) fn place(self) -> usize
        ensures { result ≡ dir_number self }
    {
        self as usize
    }
}
