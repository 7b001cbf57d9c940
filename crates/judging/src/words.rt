//! The words of judgements.
ghost use Rattle.std.specs.Prelude.{Some};
ghost use Rattle.judging.specs.Words.{found_words, judgement_words, known_words, limit_words, none_words, open_words};

use crate::faults::{FaultWords, TextFaultWords, VerdictWords};
use crate::judgement::{Counts, Judgement, Known, LimitKind, MovesClaim, Settings};
use crate::text::Number;
use std::fmt;

/// That a search ended at this limit of its settings.
#[derive(Clone, Copy)]
struct Reached(Settings, LimitKind);

impl fmt::Display for Reached {
    ghost output = { λ it. Some (limit_words it.0 it.1) };

    fn fmt<W: fmt::Write>(&self, f: &mut fmt::Formatter<W>) -> fmt::Result {
        match self.1 {
            LimitKind::Positions => {
                let most = Number(self.0.limit as usize);
                write!(f, "limit {most} reached")
            }
            LimitKind::Seconds => {
                let most = Number(self.0.seconds.unwrap_or(0) as usize);
                write!(f, "limit {most} seconds reached")
            }
        }
    }
}

/// That a search ended at this limit; every solution has at least this many pushes.
#[derive(Clone, Copy)]
struct Undecided(Reached, usize);

impl fmt::Display for Undecided {
    ghost output = { λ it. Some (open_words (limit_words it.0.0 it.0.1) it.1) };

    fn fmt<W: fmt::Write>(&self, f: &mut fmt::Formatter<W>) -> fmt::Result {
        let limit = self.0;
        let at_least = Number(self.1);
        write!(f, "{limit}, at least {at_least} pushes")
    }
}

/// That no solution has as few pushes as a cap.
#[derive(Clone, Copy)]
pub struct NoneWithin(pub Option<u32>);

impl fmt::Display for NoneWithin {
    ghost output = { λ it. Some (none_words it.0) };

    fn fmt<W: fmt::Write>(&self, f: &mut fmt::Formatter<W>) -> fmt::Result {
        match self.0 {
            Some(most) => write!(f, "none within {} pushes", Number(most as usize)),
            None => f.write_str("none within  pushes"),
        }
    }
}

/// A solution with these numbers, under a limit, beside what is known. With the flag it has as many pushes as the given
/// one.
#[derive(Drop)]
struct Found<'k>(Reached, &'k Known, bool, Counts);

impl fmt::Display for Found<'_> {
    ghost output = { λ it. Some (found_words (limit_words it.0.0 it.0.1) it.2 it.1.now.claim it.1.now.at_least it.3) };

    fn fmt<W: fmt::Write>(&self, f: &mut fmt::Formatter<W>) -> fmt::Result {
        let counts = self.3;
        if counts.pushes != self.1.at_least {
            let open = Undecided(self.0, self.1.at_least);
            return write!(f, "found {counts}, {open}");
        }
        let pushes = Number(counts.pushes);
        let moves = Number(counts.moves);
        let limit = self.0;
        let how = if self.2 { "found " } else { "" };
        match self.1.claim {
            MovesClaim::Counted => write!(f, "optimal {counts}"),
            MovesClaim::Fewest => write!(f, "optimal {pushes} pushes, optimal {moves} moves"),
            MovesClaim::Open => write!(f, "optimal {pushes} pushes, {how}{moves} moves, {limit}"),
        }
    }
}

/// What is known after a search with these settings.
#[derive(Drop)]
struct KnownWords<'k>(Settings, &'k Known);

impl fmt::Display for KnownWords<'_> {
    ghost output = { λ it. Some (known_words (limit_words it.0 it.1.now.limit) it.1.now it.1.now.given it.1.now.found) };

    fn fmt<W: fmt::Write>(&self, f: &mut fmt::Formatter<W>) -> fmt::Result {
        let KnownWords(settings, known) = self;
        let limit = Reached(*settings, known.limit);
        let open = Undecided(limit, known.at_least);
        match (&known.given, &known.found) {
            (None, None) => write!(f, "{open}"),
            (None, Some(found)) => write!(f, "{}", Found(limit, known, false, found.counts)),
            (Some(given), None) => {
                let given = *given;
                if given.pushes != known.at_least {
                    return write!(f, "{open}, given {given}");
                }
                write!(f, "{}", Found(limit, known, false, given))
            }
            (Some(given), Some(found)) => {
                let given = *given;
                let as_many = found.counts.pushes == given.pushes;
                let found = Found(limit, known, as_many, found.counts);
                write!(f, "not optimal {given}, {found}")
            }
        }
    }
}

/// A judgement in words, with the settings of its search.
#[derive(Drop)]
pub(crate) struct JudgementWords<'j>(pub(crate) Settings, pub(crate) &'j Judgement);

impl fmt::Display for JudgementWords<'_> {
    ghost output = { λ it. Some (judgement_words it.0 it.1.now) };

    fn fmt<W: fmt::Write>(&self, f: &mut fmt::Formatter<W>) -> fmt::Result {
        match self.1 {
            Judgement::Searched(known) => write!(f, "{}", KnownWords(self.0, known)),
            Judgement::NoneWithin => write!(f, "{}", NoneWithin(self.0.cap)),
            Judgement::Unsolvable => f.write_str("unsolvable"),
            Judgement::TooManyBoxes(_) => f.write_str("too many boxes"),
            Judgement::OutOfMemory {
                given: None,
                at_least: Some(bound),
            } => write!(f, "out of memory, at least {} pushes", Number(*bound)),
            Judgement::OutOfMemory {
                given: Some(given),
                at_least: Some(bound),
            } => {
                let given = *given;
                let bound = Number(*bound);
                write!(f, "out of memory, at least {bound} pushes, given {given}")
            }
            Judgement::OutOfMemory { .. } => f.write_str("out of memory"),
            Judgement::Replayed(verdict) => write!(f, "{}", VerdictWords(*verdict)),
            Judgement::BadText(fault) => write!(f, "{}", TextFaultWords(*fault)),
            Judgement::Faulty(fault) => write!(f, "{}", FaultWords(*fault)),
            Judgement::CannotRead => f.write_str("cannot read"),
            Judgement::Missing => Ok(()),
        }
    }
}
