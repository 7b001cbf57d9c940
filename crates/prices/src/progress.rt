//! What a search tells while it runs, and when its time is up.
ghost use Rattle.std.specs.Prelude.{◌≡◌, ℕ, IsTrue};
ghost use Rattle.prices.specs.Fewest.{NoneHasFewer};
ghost use Rattle.prices.specs.Timing.{IsLate};

use grid::Level;

/// Hears how far searches are, and says how long they have run.
pub trait Progress {
    // what holds once it has said that a search has run this many seconds
    ghost told: { Self → ℕ → Type 0 };

    /// The search has found this many positions, and every solution of the level has at least this many pushes.
    fn note(&mut self, level: &Level, at_least: u32, found: usize)
        requires { NoneHasFewer level.now at_least };

    /// The search has found a solution that is better than all before, with this many pushes and moves.
    fn better(&mut self, pushes: usize, moves: usize);

    /// How many seconds the search has run, rounded down.
    fn seconds(&mut self) -> u32
        ensures { told self.new result };
}

/// Hears nothing, and has no clock: each search has run for 0 seconds.
#[derive(Clone, Copy, Debug, Drop)]
pub struct Unheard;

impl Progress for Unheard {
    ghost told = { λ _ run. run ≡ 0 };

    fn note(&mut self, _level: &Level, _at_least: u32, _found: usize) {}

    fn better(&mut self, _pushes: usize, _moves: usize) {}

    fn seconds(&mut self) -> u32 {
        0
    }
}

/// Whether a search has run for as many seconds as it may. Without that number it does not ask how long.
pub fn is_late<P: Progress>(seconds: Option<u32>, progress: &mut P) -> bool
    ensures { IsTrue result → IsLate seconds (P.told progress.new) }
{
    match seconds {
        Some(most) => progress.seconds() >= most,
        None => false,
    }
}
