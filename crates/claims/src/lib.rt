//! A ledger whose numbers threads draw, each number once, without locks and without waiting. Use it to deal work to
//! threads: a draw costs one atomic addition.
//!
//! ```text
//! let (ledger, mut drawer) = Ledger::new(alloc, 2).expect(&rt, "memory");
//! assert!(&rt; ledger.enrol(&mut drawer, 0));
//! assert_eq!(&rt; ledger.draw(&mut drawer), Some(0));
//! assert_eq!(&rt; ledger.draw(&mut drawer), Some(1));
//! assert_eq!(&rt; ledger.draw(&mut drawer), None);
//! ```
#![tactic(auto)]

mod drawer;
mod ledger;
mod steps;
mod views;

pub use drawer::Drawer;
pub use ledger::{Ledger, PLACES};
