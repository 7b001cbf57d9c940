//! Collections of Sokoban levels in XSB notation, read from bytes and written to bytes.
//!
//! [`read`] gives all levels of a collection at once, [`Collection`] gives one board after the other and keeps only one
//! in memory. [`write`] writes a level. Time and memory grow with the bytes of the collection and its boards.
//!
//! - **Lines.** A byte order mark at the beginning is skipped. A line ends at a line feed or at the end of the input;
//!   one carriage return right before that is no part of it. Lines are numbered from 1.
//! - **Row lines.** Each `|` ends a piece of a line; empty pieces are skipped. A piece is a row if it is a list of
//!   items. An item is a cell byte, or a count (one to four digits, from 1 to 9999) and a cell byte for that many
//!   cells. A line is a row line if each piece is a row and the line has a `#`. Every other line is a text line.
//! - **Cells.** `#` wall, `@` player, `+` player on goal, `$` box, `*` box on goal, `.` goal; space, `-` and `_` floor.
//! - **Boards.** A board is a longest run of row lines. Floor at the end of a row is removed. The greatest length is
//!   then the number of columns, and shorter rows are padded with floor on the right.
//! - **Names.** A board's name is the last line that begins with `;` in the gap before it, or else the first line that
//!   begins with `Title:` in the gap after it, or else empty. Spaces and tabs at both ends of a name are removed.
//!
//! ```text
//! let entries = xsb::read(alloc, b"; first\n#####\n#@$.#\n#####\n").expect(&rt, "memory");
//! let [entry] = entries.as_slice() else {
//!     panic!(&rt; "one board");
//! };
//! assert_eq!(&rt; entry.name.as_slice(), b"first".as_slice());
//! assert!(&rt; entry.board.is_ok());
//! ```
#![tactic(auto)]

mod boards;
mod breaks;
mod bytes;
mod cells;
mod entry;
mod foreign;
mod gaps;
mod items;
pub mod laws;
mod limits;
mod lines;
mod names;
mod places;
mod reader;
mod rows;
mod sizes;
mod writer;

pub use breaks::{BrokenRow, BrokenRows, Cause, Flaw};
pub use cells::cell_byte;
pub use entry::{BoardEntry, Entry, ReadFault};
pub use foreign::first_foreign;
pub use limits::MAX_FILE;
pub use places::{BoardRows, BoardSource, Excess, RowPlace};
pub use reader::{Collection, read};
pub use writer::write;
