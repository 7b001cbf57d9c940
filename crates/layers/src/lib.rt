//! Layers of normal positions, in the order of the least push lists that lead there. A search enters the successors of
//! a layer in books, which close the next layer.
//!
//! Use it to write a layer search with your own workers: make books for all shares ([`Book::of_all_shares`]), expand
//! each rank of a layer once ([`expand`]), hand the parcel to each book ([`Book::hand_back`]), close the books
//! ([`Book::close`]) and join them ([`Layer::join`]). The order of events and the number of books do not change a layer
//! (proved). A position takes some 50 to 150 bytes, with more than 11 boxes up to 370. The items of `successors` that
//! callers need are exported here too.
//!
//! With the `level` of a room of three rows of three squares, the box in the middle, its goal at the top left and the
//! player at the bottom right:
//!
//! ```text
//! let book = Book::of(alloc, level, None, 1_000, 1, 0, 1).expect(&rt, "memory");
//! let layer = Layer::join(alloc, slice::from_ref(&book)).expect(&rt, "memory");
//! assert_eq!(&rt; (layer.number(), layer.len()), (0, 1));
//! ```
#![tactic(auto)]

mod book;
mod events;
mod expanding;
mod fault;
mod holding;
mod join;
pub mod laws;
mod layer;
mod limits;
mod making;
mod marks;
mod merging;
mod parents;

pub use book::{Book, Claim, Closed};
pub use expanding::{expand, expand_over, expand_over_into};
pub use fault::{BeginFault, BookFault, CloseFault, JoinFault, Refusal};
pub use layer::Layer;
pub use limits::{MAX_WORKERS, MOST_POSITIONS};
pub use parents::Parents;
pub use successors::{MAX_SHARES, Parcel, Problem, Successor};
