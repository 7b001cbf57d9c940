use prover::{Progress, Unheard};

/// Hears how far the searches of an engine are, and says how long each has run.
pub trait Watch: Progress {
    /// Whether it wants to know the number of the last level, which takes a look at the whole collection.
    fn wants_last(&self) -> bool;

    /// Several levels are searched, the last of them with at most this number.
    fn end_at(&mut self, number: u32);

    /// The level with this number comes next.
    fn begin(&mut self, number: u32);

    /// A given solution of the level has this many pushes.
    fn compare(&mut self, pushes: usize);

    /// A search of the level comes next: its seconds count from here.
    fn restart(&mut self);
}

impl Watch for Unheard {
    fn wants_last(&self) -> bool {
        false
    }

    fn end_at(&mut self, _number: u32) {}

    fn begin(&mut self, _number: u32) {}

    fn compare(&mut self, _pushes: usize) {}

    fn restart(&mut self) {}
}
