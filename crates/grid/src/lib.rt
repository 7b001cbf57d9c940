//! The game: squares, lawful levels, states, steps and positions of Sokoban, and the limits of levels.
//!
//! Use [`Level`] and [`State`] to play moves by the rules, and [`Position`] (boxes in rising order, and the player) to
//! search. A level takes memory in proportion to its squares; a step and a position take none.
//!
//! With the `level` of a corridor `@$.`, a player, a box and a goal in a row:
//!
//! ```text
//! let mut state = State::start(alloc, &level).expect(&rt, "memory");
//! assert_eq!(&rt; state.step(&level, Dir::L), Step::Blocked);
//! assert_eq!(&rt; state.step(&level, Dir::R), Step::Pushed);
//! assert!(&rt; state.is_solved(&level));
//! ```
#![tactic(auto)]

mod around;
mod board;
mod boxes;
mod cell;
mod dir;
mod fault;
mod hashing;
mod judging;
pub mod laws;
mod level;
mod limits;
mod masks;
mod moves;
mod position;
mod room;
mod square;
mod state;

pub use board::Board;
pub use cell::Cell;
pub use dir::Dir;
pub use fault::LevelFault;
pub use level::Level;
pub use limits::{MAX_BOXES, MAX_COLS, MAX_ROWS, MAX_SQUARES};
pub use masks::WORD_BITS;
pub use moves::{Letter, Moves};
pub use position::Position;
pub use square::{Push, Square};
pub use state::{State, Step};
