//! The fewest moves among the solutions with the fewest pushes.
//!
//! A state is the squares of the boxes and the exact square of the player, who is where the last push left him. The
//! search takes the fewest pushes of a level as known, and has three steps:
//!
//! 1. It lists the states that plays from the start reach, by their numbers of pushes. It leaves a push out only if no
//!    play goes on from there and solves the level with the pushes that are left. A long list makes tables of regions
//!    for this.
//! 2. From the last state to the first it finds the fewest moves from each state to the end: over the pushes that are
//!    possible there, the least sum of the shortest walk behind the box, the push, and the fewest moves after it.
//! 3. From the start on it reads the pushes of the least sums.
//!
//! [`improve`] takes less time: it saves moves of a given solution, piece by piece, and does not promise the fewest.
//! [`first_solution`] looks for a solution of a level that a search left undecided, and promises none.
#![tactic(auto)]

mod aim;
mod beam;
mod bounds;
mod improving;
mod listing;
mod near;
mod outcome;
mod plays;
mod ranks;
mod reading;
mod rests;
mod searching;
mod states;
mod trail;
mod ways;

pub use aim::Aim;
pub use beam::first_solution;
pub use improving::improve;
pub use outcome::MovesOutcome;
pub use searching::search_moves;
