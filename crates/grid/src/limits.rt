//! The limits of levels and positions.

/// The greatest number of rows of a level.
pub const MAX_ROWS: usize = 255;

/// The greatest number of columns of a level.
pub const MAX_COLS: usize = 255;

/// The greatest number of boxes of a level that can be searched.
pub const MAX_BOXES: usize = 64;

/// The greatest number of squares of a level.
pub const MAX_SQUARES: usize = MAX_ROWS * MAX_COLS;
