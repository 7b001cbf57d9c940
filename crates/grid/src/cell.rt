/// What is on a square at the start of a level. The seven cells are those of the Sokoban Wiki's level format.
#[derive(Clone, Copy, PartialEq, Eq, Debug)]
pub enum Cell {
    Wall,
    Floor,
    Goal,
    Box,
    BoxOnGoal,
    Player,
    PlayerOnGoal,
}

ghost use Rattle.std.specs.Prelude.{◌≡◌};
ghost use Rattle.grid.specs.Board.{wall_cell, goal_cell, box_cell, player_cell};

impl Cell {
    /// Whether the cell is a wall.
    pub fn is_wall(self) -> bool
        ensures { result ≡ wall_cell self }
    {
        matches!(self, Cell::Wall)
    }

    /// Whether the cell has a goal.
    pub(crate) fn has_goal(self) -> bool
        ensures { result ≡ goal_cell self }
    {
        matches!(self, Cell::Goal | Cell::BoxOnGoal | Cell::PlayerOnGoal)
    }

    /// Whether a box is on the cell.
    pub fn has_box(self) -> bool
        ensures { result ≡ box_cell self }
    {
        matches!(self, Cell::Box | Cell::BoxOnGoal)
    }

    /// Whether the player is on the cell.
    pub(crate) fn has_player(self) -> bool
        ensures { result ≡ player_cell self }
    {
        matches!(self, Cell::Player | Cell::PlayerOnGoal)
    }
}
