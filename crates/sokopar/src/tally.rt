use grid::Level;
use prover::Progress;

/// Passes on what a search tells, and keeps how many positions it has found.
#[derive(Drop)]
pub(crate) struct Tally<'a, P> {
    progress: &'a mut P,
    found: usize,
}

impl<'a, P: Progress> Tally<'a, P> {
    /// Before a search.
    pub(crate) fn of(progress: &'a mut P) -> Tally<'a, P> {
        Tally { progress, found: 0 }
    }

    /// How many positions the search has found.
    pub(crate) fn found(&self) -> usize {
        self.found
    }
}

impl<'a, P: Progress> Progress for Tally<'a, P> {
    ghost told = { λ it. P.told it.progress.now };

    fn note(&mut self, level: &Level, at_least: u32, found: usize) {
        self.found = found;
        self.progress.note(level, at_least, found);
    }

    fn better(&mut self, pushes: usize, moves: usize) {
        self.progress.better(pushes, moves);
    }

    fn seconds(&mut self) -> u32 {
        self.progress.seconds()
    }
}
