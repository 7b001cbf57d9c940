//! Deadlocks, and a lower bound: dead squares, frozen boxes, and the fewest pushes that a position needs.
//!
//! - [`Dead`] finds the dead squares of a level once. All checks use it.
//! - [`doomed`] checks a whole position for dead squares and frozen boxes (simple and freeze deadlocks).
//! - [`doomed_after`] checks only what a push can have changed. After an undoomed position it equals `doomed`.
//! - [`dooms`] does the same after a position that is known not to be doomed, in less time.
//! - [`Dangers`] finds the pushes of a position that can freeze nothing, for all pushes at once. Ask it before
//!   `doomed_after` where a search tries many pushes.
//! - [`any_frozen`] checks some boxes only.
//! - [`Bound`] gives a lower bound on the pushes of a solution.
//!
//! No play that ends solved passes a doomed position ([`laws`]). The checks allocate no memory; they use an
//! [`area::Scratch`].
//!
//! With the `level` of a room of three rows of three squares, the box in the middle, its goal at the top left and the
//! player at the bottom right:
//!
//! ```text
//! let dead = Dead::of(alloc, &level).expect(&rt, "memory");
//! assert!(&rt; dead.is_dead(Square(8)));
//! assert!(&rt; !dead.is_dead(Square(7)));
//! ```
#![tactic(auto)]

mod after;
mod bound;
mod dangers;
mod dead;
mod freeze;
mod holds;
pub mod laws;
mod locked;
mod pulls;
mod small;

pub use after::{doomed_after, dooms};
pub use bound::Bound;
pub use dangers::Dangers;
pub use dead::Dead;
pub use freeze::{any_frozen, doomed};
