//! Memory that a search uses for one position after the other.
ghost use Rattle.std.specs.Prelude.{◌≡◌, IfOk};

use crate::pushing::Opened;
use corrals::Corral;
use prices::Matching;
use std::alloc::{AllocError, Global};
use successors::{Expander, Problem};

/// Memory to expand positions: for their pushes, for the matchings of a position and of one after it, and for a corral.
/// `opened` are the positions that an expansion has opened, and `next` is the least total of the pushes that it has
/// left for later.
#[derive(Drop)]
pub(crate) struct Workspace<'a> {
    pub(crate) expander: Expander<'a>,
    pub(crate) matching: Matching,
    pub(crate) next_matching: Matching,
    pub(crate) corral: Corral,
    pub(crate) opened: Vec<Opened>,
    pub(crate) next: Option<u32>,
}

impl<'a> Workspace<'a> {
    /// A workspace for a problem. Fails only if out of memory.
    pub(crate) fn new(alloc: Global, problem: &'a Problem) -> Result<Workspace<'a>, AllocError>
        ensures { IfOk result (λ workspace. workspace.expander.problem ≡ problem.now) }
    {
        Ok(Workspace {
            expander: Expander::new(alloc, problem)?,
            matching: Matching::new(),
            next_matching: Matching::new(),
            corral: Corral::new(alloc, problem.level())?,
            opened: Vec::new(alloc),
            next: None,
        })
    }
}
