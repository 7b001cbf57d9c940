//! Corrals: rooms that boxes shut, such that it suffices to push one of these boxes next. A search for solutions with
//! the fewest pushes uses them to leave out all other pushes.
//!
//! A guess chooses the boxes and squares, and a proved check accepts them only if they are a corral by definition. If a
//! corral has no possible push, no play solves the position with the pushes that are left.
//!
//! [`find`] looks for a corral after a flood of the position. If it returns `true`, the pushes of boxes that
//! [`Corral::holds`] suffice. A call takes no memory, and about as long as a few floods.
//!
//! With references to the `level` of a row in which a wall separates the player from a box beside its goal, and to the
//! other names, this is `true`:
//!
//! ```text
//! area::flood(level, start, scratch);
//! // one push is left after the next
//! let slack = Slack::of(distances, start, Some(1), &matching);
//! corrals::find(level, dead, start, scratch, &slack, corral)
//! ```
#![tactic(auto)]

mod checking;
mod choice;
mod corral;
mod finding;
mod freezing;
mod ground;
pub mod laws;
mod sketch;
mod stuck;

pub use corral::Corral;
pub use finding::find;
