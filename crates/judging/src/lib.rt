//! What is known of a level, and how reports say it: in words, as a row of a table, and in totals.
#![tactic(auto)]

mod faults;
mod judgement;
mod kind;
mod lines;
mod row;
mod text;
mod totals;
mod words;

pub use faults::{FaultWords, TextFaultWords, VerdictWords};
pub use judgement::{Counts, Judgement, Known, LimitKind, MovesClaim, Settings, Solution};
pub use kind::{Group, Kind};
pub use lines::{head_of, put_judgement, put_letters_line, put_level_line};
pub use text::{Number, Text};
pub use totals::{all_missing, put_totals, worst_status};
pub use words::NoneWithin;
