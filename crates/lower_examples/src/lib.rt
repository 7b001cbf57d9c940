//! Worked examples of the public calls of the crates below `crew`.
//!
//! A function that owns a book moves it on or drops it by name. Otherwise its proof would take the book apart field by
//! field at the end of the block, which takes most of a minute.
#![tactic(auto)]

#[cfg(test)]
mod alone;
#[cfg(test)]
mod boards;
#[cfg(test)]
mod books;
#[cfg(test)]
mod bounds;
#[cfg(test)]
mod dooms;
#[cfg(test)]
mod entries;
#[cfg(test)]
mod excesses;
#[cfg(test)]
mod fewest_moves;
#[cfg(test)]
mod floods;
#[cfg(test)]
mod ledgers;
#[cfg(test)]
mod letters;
#[cfg(test)]
mod memory;
#[cfg(test)]
mod pages;
#[cfg(test)]
mod timed;
#[cfg(test)]
mod values;
