//! The fewest pushes that solve a level, by one best-first search.
//!
//! The total of a position is the pushes that led to it and a lower bound on those that it still needs. The search
//! expands the open position of the least total first, so the first solved position that comes up has the fewest
//! pushes. An expansion opens the positions whose totals the search has reached. The expanded position stays open with
//! the least of the greater totals, and is expanded again when that comes up. An expansion may leave pushes out. But if
//! a position has a solution that the cap allows, some push that its expansions keep leads on to a solution with as few
//! pushes.
//!
//! A search goes in rounds. A round expands the open position of the least total, and then others whose totals the
//! search has reached, side by side. What it finds does not depend on the number of workers, unless one runs out of
//! memory.
//!
//! With the `level` of a room of three rows of three squares, the box in the middle, its goal at the top left and the
//! player at the bottom right:
//!
//! ```text
//! let progress = &mut Unheard;
//! let best = prover::search(&rt, alloc, &level, None, 1_000, None, 1, progress);
//! let best = best.expect(&rt, "memory");
//! assert!(&rt; matches!(&best, Outcome::Least { pushes: 2, .. }));
//! let none = prover::search(&rt, alloc, &level, Some(1), 100, None, 2, progress);
//! let none = none.expect(&rt, "memory");
//! assert!(&rt; matches!(&none, Outcome::NoneWithin));
//! ```
#![tactic(auto)]

mod expansion;
mod frontier;
mod lane;
pub mod laws;
mod outcome;
mod parity;
mod pruner;
mod pushing;
mod queue;
mod recording;
mod retracing;
mod rounds;
mod searching;
mod stages;
mod workspace;

pub use outcome::Outcome;
pub use prices::{Progress, SearchFault, Unheard};
pub use searching::search;
