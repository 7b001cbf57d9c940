//! Lower bounds on pushes by a matching: how many pushes the boxes of a position need at least to come to goals of
//! their own, each box as if it were alone in the room with the player.
//!
//! A matching of the boxes with the goals gives each goal a toll. The need of a box is then the least sum, over the
//! goals, of its distance and the goal's toll, and no play that ends solved has fewer pushes than the needs of the
//! boxes minus the sum of the tolls. That holds for any tolls, so the matching needs no contract; a good one makes
//! the bound great.
//!
//! The memory of [`Distances::of`] grows with the number of goals times the number of squares. Its time also grows with
//! the number of sides from which a box can be pushed. A bound takes no memory.
//!
//! With the `level` of a room of three rows of three squares, the box in the middle, its goal at the top left and the
//! player at the bottom right:
//!
//! ```text
//! level.tell_start();
//! let start = Position::start(&level).expect(&rt, "few boxes");
//! let distances = Distances::of(alloc, &level).expect(&rt, "memory");
//! let mut matching = Matching::new();
//! // the box is two pushes from its goal
//! assert_eq!(&rt; distances.lower(&start, &mut matching), 2);
//! ```
#![tactic(auto)]

mod check;
mod distances;
mod fault;
pub mod laws;
mod lost;
mod matching;
mod mending;
mod needs;
mod numbering;
mod progress;
mod pulls;
mod sides;
mod slack;
mod table;

pub use distances::Distances;
pub use fault::SearchFault;
pub use matching::Matching;
pub use progress::{Progress, Unheard, is_late};
pub use pulls::NEVER;
pub use slack::Slack;
