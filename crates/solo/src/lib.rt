//! The search for the least solution of a level on one thread ([`solve_alone`]), its state for solvers with workers
//! ([`Search`]), and the play that leads to a position ([`moves_to`]).
//!
//! Time and memory grow with the positions: each takes some 50 to 150 bytes, with more than 11 boxes up to 370, and 1
//! to 5 microseconds, in the largest rooms up to 50.
//!
//! With the `level` of a room of three rows of three squares, the box in the middle, its goal at the top left and the
//! player at the bottom right:
//!
//! ```text
//! let answer = solve_alone(alloc, &level, None, 1_000).expect(&rt, "memory");
//! assert!(&rt; matches!(&answer, Answer::Solved { pushes: 2, .. }));
//! ```
#![tactic(auto)]

mod alone;
mod answer;
mod goals;
pub mod laws;
mod lead;
mod ranks;
mod rest;
mod search;

pub use alone::solve_alone;
pub use answer::{Answer, SolveFault};
pub use goals::first_solved;
pub use lead::moves_to;
pub use ranks::{begin_each, close_ahead, close_rest, last_layer};
pub use search::Search;
