//! The bytes of the notation.

/// Ends a line.
pub const LINE_FEED: u8 = b'\n';

/// Carriage return: before a line feed, or last in the input, it is no part of the line.
pub const CARRIAGE_RETURN: u8 = b'\r';

/// Cuts a line into pieces.
pub const BAR: u8 = b'|';

/// The byte of a wall.
pub const WALL: u8 = b'#';

/// The byte that is written for floor.
pub const FLOOR: u8 = b' ';

/// Another byte of floor.
pub const FLOOR_DASH: u8 = b'-';

/// Another byte of floor.
pub const FLOOR_LOW_LINE: u8 = b'_';

/// The byte of a goal.
pub const GOAL: u8 = b'.';

/// The byte of a box.
pub const BOX: u8 = b'$';

/// The byte of a box on a goal.
pub const BOX_ON_GOAL: u8 = b'*';

/// The byte of the player.
pub const PLAYER: u8 = b'@';

/// The byte of the player on a goal.
pub const PLAYER_ON_GOAL: u8 = b'+';

/// A byte that is removed at both ends of a name.
pub const SPACE: u8 = b' ';

/// Another byte that is removed at both ends of a name.
pub const TAB: u8 = b'\t';
