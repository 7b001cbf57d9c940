//! The history of a source or a sink, which only contracts see. It takes no memory, and its function does nothing.
ghost use Rattle.std.specs.Prelude.{◌≡◌, List};
ghost use Rattle.std.specs.Borrow.{ftrue};
ghost use Rattle.sokopar.specs.Ends.{Act};
ghost use Rattle.sokopar.specs.inside.Trail.{acts_code};

use std::marker::Model;
use thiserror::Error;

/// A read or a write that failed.
#[derive(Clone, Copy, PartialEq, Eq, Debug, Drop, Error)]
#[error("a read or a write failed")]
pub struct Failed;

/// The results so far.
#[derive(Drop)]
pub(crate) struct Trail {
    pub ghost acts: { List Act } by { acts_code },
}

impl Model for Trail {
    ghost also_owns = { λ _. ftrue };
}

/// What was done: nothing yet; or a read or a write after others, which moved some bytes, or failed.
#[derive(Clone, Copy, Drop)]
pub(crate) enum Past<'a> {
    Nothing,
    Moved(&'a Trail, &'a [u8]),
    Failed(&'a Trail),
}

impl Trail {
    ghost use Rattle.sokopar.specs.inside.Trailing.{acts_of};

    /// The history of what was done.
    pub(crate) fn of(_past: &Past<'_>) -> Trail
        ensures { result.acts ≡ acts_of _past.now }
    {
        Trail {}
    }
}
