//! The engines of the program: each reads its files to their end, and writes a whole report, or one on several levels
//! line by line. Use them to run a command over memory or any other [`Source`] and [`Sink`]. A report takes memory in
//! proportion to its length.
//!
//! With `file`, the bytes of a collection:
//!
//! ```text
//! let mut text = Vec::new(alloc);
//! let status = run_check(
//!     alloc,
//!     &mut Reader::new(&mut file),
//!     &mut Writer::new(&mut text),
//! );
//! assert_eq!(&rt; status.ok(), Some(0));
//! assert_eq!(&rt;
//!     text.as_slice(),
//!     b"1 line 1 ok 3x5 1 boxes\n1 levels, 1 good\n".as_slice()
//! );
//! ```
#![tactic(auto)]

mod check;
mod compare;
mod dead;
mod doomed;
mod engines;
mod exits;
mod explain;
mod explaining;
mod fault;
mod faulty;
mod folder;
mod further;
mod given;
mod judge;
mod judges;
mod laws;
mod levels;
mod listing;
mod one_level;
mod picture;
mod proving;
mod reads;
mod remark;
mod replay;
mod report;
mod search;
mod searches;
mod sentences;
mod show;
mod showing;
mod sink;
mod solve;
mod source;
mod tally;
mod trail;
mod watch;
mod writes;

pub use engines::{
    SolveRequest, run_check, run_dead, run_replay, run_show, run_show_range, run_solve,
    run_solve_with,
};
pub use explaining::run_explain;
pub use fault::RunFault;
pub use folder::Folder;
pub use judging::Settings;
pub use laws::{one_report, printed_solution_replays, shown_levels_read_back, solution_replays};
pub use prover::{Progress, Unheard};
pub use proving::{
    LevelRequest, LevelsRequest, run_best, run_best_collection, run_prove, run_prove_collection,
};
pub use sink::{Sink, Writer};
pub use source::{Reader, Source};
pub use trail::Failed;
pub use watch::Watch;
