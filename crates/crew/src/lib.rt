//! The least solution of a level, found by several workers ([`solve`]). The workers draw the ranks of a layer from a
//! ledger without locks, and share the books of the level, each behind a lock of its own. The answer does not depend on
//! the numbers of workers and locks (proved).
//!
//! Use it from about 100,000 positions on: a worker's thread costs more than a small layer. From a million positions on
//! four workers over four locks are about twice as fast as one.
//!
//! With the `level` of a room of three rows of three squares, the box in the middle, its goal at the top left and the
//! player at the bottom right:
//!
//! ```text
//! let config = Config {
//!     workers: 2,
//!     locks: 2,
//!     limit: 1_000,
//!     cap: None,
//! };
//! let answer = crew::solve(&rt, alloc, &level, config, &Free).expect(&rt, "memory");
//! assert!(&rt; matches!(&answer, Answer::Solved { pushes: 2, .. }));
//! ```
#![tactic(auto)]

mod batch;
mod closing;
mod config;
mod desks;
mod end;
mod event;
mod gate;
mod handing;
mod held;
mod iteration;
mod known;
mod lent;
mod locking;
mod search;
mod settings;
mod shared;
mod worker;
mod workers;

pub use config::Config;
pub use end::End;
pub use gate::{Free, Gate};
pub use search::solve;
pub use worker::work;
