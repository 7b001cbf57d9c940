//! Worked examples of the public calls of `crew` and `sokopar`, whose engines run over memory.
//!
//! A function that owns a book moves it on or drops it by name. Otherwise its proof would take the book apart field by
//! field at the end of the block, which takes most of a minute.
#![tactic(auto)]

#[cfg(test)]
mod boards;
#[cfg(test)]
mod books;
#[cfg(test)]
mod crews;
mod ends;
#[cfg(test)]
mod pages;
#[cfg(test)]
mod tests;
#[cfg(test)]
mod texts;

pub use ends::{Paper, Pieces};
