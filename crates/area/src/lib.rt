//! Where the player walks without a push: floods, normal positions, possible pushes and shortest walks.
//!
//! # When to use it
//!
//! - [`flood`] finds the squares that the player reaches without a push.
//! - [`normal`] makes two positions equal that differ only by such a walk. [`normalise_after`] does the same after
//!   a push, in less time.
//! - [`possible_pushes`] lists the pushes that a position allows.
//! - [`walk`] gives the moves between two pushes.
//! - [`Walks`] measures the lengths of the shortest walks to all squares at once.
//!
//! # What it costs
//!
//! All calls except those of [`Walks`] work in a [`Scratch`]: about five bytes a square, made once for levels of the
//! same rows and columns. Beside that only [`walk`] takes memory, for its moves. In the player's room a flood works on
//! words of 64 squares and keeps up to two words in registers; outside the room it goes from square to square, and
//! so do searches for walks. After a push the flood of the position before it mostly decides, so a search makes one
//! flood a position.
//!
//! # Example
//!
//! With the `level` of a room of three rows of three squares, the box in the middle, its goal at the top left and
//! the player at the bottom right:
//!
//! ```text
//! level.tell_start();
//! let start = Position::start(&level).expect(&rt, "few boxes");
//! let mut scratch = Scratch::new(alloc, &level).expect(&rt, "memory");
//! let normal = area::normal(&level, &start, &mut scratch);
//! assert_eq!(&rt; normal.player(), Square(6));
//! ```
#![tactic(auto)]

mod after;
#[doc(hidden)]
pub mod bits;
mod fill;
mod floods;
mod groups;
#[doc(hidden)]
pub mod laws;
mod possible;
mod ring;
mod rooms;
mod route;
mod scratch;
mod set;
mod sight;
mod spread;
mod steps;
mod walks;

pub use after::normalise_after;
pub use floods::{flood, normal};
pub use possible::{MAX_PUSHES, possible_pushes};
pub use route::walk;
pub use scratch::Scratch;
pub use set::SquareSet;
pub use walks::Walks;
