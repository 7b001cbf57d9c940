//! The successors of a Sokoban position: the positions that its pushes lead to, except those that are doomed and those
//! from which no solution keeps the cap on pushes.
//!
//! A [`Problem`] is what a search solves: a level, perhaps with a cap, and what follows from them. A [`Parcel`] holds
//! all successors of a position, in the order of their pushes; use it to store them, and to deal them to threads by
//! their shares. An [`Expander`] makes the successors one at a time; use it to skip pushes. [`play_pushes`] writes
//! the least play with given pushes.
//!
//! Only the constructors and [`play_pushes`] take memory. To expand a position costs one flood of the player's area
//! and, for each push, a test of the boxes around the pushed one and rarely another flood.
//!
//! With the start of a row that has two boxes, on the squares 9 and 11, and the player between them:
//!
//! ```text
//! // the squares are 9, 11 and 10
//! assert_eq!(&rt; share_of(&start, 2), 0);
//! assert_eq!(&rt; share_of(&start, 4), 2);
//! ```
#![tactic(auto)]

mod dealing;
mod expander;
mod expansion;
mod limits;
mod parcel;
mod plays;
mod problem;
mod pruning;
mod pushing;
mod sums;

pub use expander::Expander;
pub use expansion::RankedPosition;
pub use limits::MAX_SHARES;
pub use parcel::{Parcel, Successor};
pub use plays::play_pushes;
pub use problem::Problem;
pub use sums::{share_by, share_of};
