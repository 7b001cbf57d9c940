//! Lower bounds on pushes by regions: sets of squares whose boxes are in each other's way. The table of a region says,
//! for each set of boxes within it and each square of the player, how many pushes these boxes must waste before the
//! region is as in a solved position. Boxes elsewhere are left out: the player crosses their squares, and boxes come in
//! and leave wherever a push can start.
//!
//! A push *wastes* one push, and what the need of its box becomes greater by. The need of a box is the least sum, over
//! the goals, of its distance and the goal's toll (`prices`). Each push is counted by the regions for no more than it
//! wastes, so the needs of the boxes and the tables of all regions add up to a bound.
//!
//! A proved check compares each entry of a table with what each single step leads to, so it does not matter how the
//! squares were chosen and how the table was filled. Without tables a bound is that of the matching. A bound takes no
//! memory. A search that is held up can choose regions again for positions that it samples ([`Regions::plan_for`]).
//!
//! With the `level` of a room of five rows of five squares, in the third row the player, two boxes side by side and two
//! goals:
//!
//! ```text
//! let start = Position::start(&level).expect(&rt, "few boxes");
//! assert!(&rt; start.fits(&level));
//! let mut regions = Regions::of_prices(alloc, &level).expect(&rt, "memory");
//! let mut plan = regions.plan(alloc, &level, 1 << 20).expect(&rt, "memory");
//! for job in plan.jobs() {
//!     job.run(alloc).expect(&rt, "memory");
//! }
//! regions.take(alloc, &level, plan).expect(&rt, "memory");
//! let mut matching = Matching::new();
//! // each box is two pushes from a goal, and one of them has to be pushed out of the row and back
//! assert_eq!(&rt; regions.lower(&start, &mut matching), Some(6));
//! ```
#![tactic(auto)]

mod check;
mod choosing;
mod filling;
mod fitting;
pub mod laws;
mod layout;
mod listing;
mod needs;
mod plan;
mod regions;
mod rows;
mod steps;
mod sums;
mod table;
mod wastes;
mod windows;

pub use plan::{Job, Plan};
pub use regions::Regions;
