//! The positions that a search has found, in as few bytes as their boxes and their grid need.
//!
//! [`Found`] holds the positions of a share: the closed ones, and the open ones, each with the least origin offered so
//! far. A book of `layers` has one. [`Visited`] holds positions at fixed places, each with a label, for a best-first
//! search.
//!
//! With a `level` of one box:
//!
//! ```text
//! let first = Position::start(level);
//! let found = Found::of(alloc, level.boxes(), level.squares(), &first).expect(rt, "memory");
//! assert!(rt; found.closed_len() == 1);
//! assert!(rt; found.closed_at(1).is_none());
//! ```
#![tactic(auto)]

mod batches;
mod closing;
mod copying;
mod entering;
mod found;
mod key;
mod labels;
mod origin;
mod pending;
mod probe;
mod table;
mod visited;
mod widths;

pub use copying::recycled;
pub use found::Found;
pub use origin::{MOST_RANKS, Origin};
pub use pending::most_pending;
pub use visited::{Label, Parent, Visited};
