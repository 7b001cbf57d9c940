//! Solutions as text in LURD notation (letters for moves, capitals for pushes), and the verdict of the rules on them.
//! [`parse`] reads a text, [`replay`] plays it on a level, [`write`] writes one. Memory and time grow with the moves.
//!
//! With the `level` of a corridor `@$.`, a player, a box and a goal in a row:
//!
//! ```text
//! let moves = lurd::parse(alloc, b"R").expect(&rt, "letters");
//! let verdict = lurd::replay(alloc, &level, &moves).expect(&rt, "memory");
//! assert!(&rt;
//!     matches!(
//!         verdict,
//!         Verdict::Solved {
//!             pushes: 1,
//!             moves: 1
//!         }
//!     )
//! );
//! ```
#![tactic(auto)]

mod fault;
mod item;
pub mod laws;
mod limits;
mod text;
mod verdict;

pub use fault::LurdFault;
pub use limits::MAX_MOVES;
pub use text::{parse, write};
pub use verdict::{Verdict, replay};
