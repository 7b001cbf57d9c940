//! The words of faults and verdicts.
ghost use Rattle.std.specs.Prelude.{Some};
ghost use Rattle.judging.specs.Words.{counts_words, fault_words, text_fault_words, verdict_words};

use crate::judgement::Counts;
use crate::text::Number;
use grid::LevelFault;
use lurd::{LurdFault, Verdict};
use std::fmt;

impl fmt::Display for Counts {
    ghost output = { λ counts. Some (counts_words counts.pushes counts.moves) };

    fn fmt<W: fmt::Write>(&self, f: &mut fmt::Formatter<W>) -> fmt::Result {
        let pushes = Number(self.pushes);
        let moves = Number(self.moves);
        write!(f, "{pushes} pushes, {moves} moves")
    }
}

/// A fault of a level in words: its number and its name, and the numbers of boxes and goals if they differ.
#[derive(Clone, Copy)]
pub struct FaultWords(pub LevelFault);

impl fmt::Display for FaultWords {
    ghost output = { λ it. Some (fault_words it.0) };

    fn fmt<W: fmt::Write>(&self, f: &mut fmt::Formatter<W>) -> fmt::Result {
        match self.0 {
            LevelFault::TooTall => f.write_str("fault 1 TooTall"),
            LevelFault::TooWide => f.write_str("fault 2 TooWide"),
            LevelFault::NoPlayer => f.write_str("fault 3 NoPlayer"),
            LevelFault::TwoPlayers => f.write_str("fault 4 TwoPlayers"),
            LevelFault::NoBox => f.write_str("fault 5 NoBox"),
            LevelFault::Counts { boxes, goals } => {
                write!(f, "fault 6 Counts {} {}", Number(boxes), Number(goals))
            }
            LevelFault::Open => f.write_str("fault 7 Open"),
            LevelFault::OutOfMemory => f.write_str("fault 8 OutOfMemory"),
        }
    }
}

/// A fault in the text of a solution in words.
#[derive(Clone, Copy)]
pub struct TextFaultWords(pub LurdFault);

impl fmt::Display for TextFaultWords {
    ghost output = { λ it. Some (text_fault_words it.0) };

    fn fmt<W: fmt::Write>(&self, f: &mut fmt::Formatter<W>) -> fmt::Result {
        match self.0 {
            LurdFault::BadByte { at } => write!(f, "bad byte at {}", Number(at)),
            LurdFault::BadCount { at } => write!(f, "bad count at {}", Number(at)),
            LurdFault::TooManyMoves => f.write_str("too many moves"),
            LurdFault::OutOfMemory => f.write_str("out of memory"),
        }
    }
}

/// A verdict on a solution in words.
#[derive(Clone, Copy)]
pub struct VerdictWords(pub Verdict);

impl fmt::Display for VerdictWords {
    ghost output = { λ it. Some (verdict_words it.0) };

    fn fmt<W: fmt::Write>(&self, f: &mut fmt::Formatter<W>) -> fmt::Result {
        match self.0 {
            Verdict::Solved { pushes, moves } => write!(f, "solved {}", Counts { pushes, moves }),
            Verdict::Unsolved { pushes, moves } => {
                write!(f, "unsolved {}", Counts { pushes, moves })
            }
            Verdict::Blocked { at } => write!(f, "blocked at {}", Number(at)),
            Verdict::WrongCase { at } => write!(f, "wrong case at {}", Number(at)),
        }
    }
}
