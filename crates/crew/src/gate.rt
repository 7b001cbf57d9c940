ghost use Rattle.std.specs.Prelude.{◌≡◌, ℕ, Bool, false, true};

/// A callback after each event of a worker, while the worker holds no lock. An event is a draw that gives a rank, or a
/// parcel that one book accepted. Use it to stop or delay workers, for example in tests.
pub trait Gate {
    /// Whether the gate may ever stop a worker.
    ghost may_stop: { Bool };

    /// Whether the gate may give an answer for a layer, a worker and an event. By default it may give each.
    ghost may_answer: { Self → ℕ → ℕ → ℕ → Bool → Bool } = { λ _ _ _ _ _. true };

    /// Whether the worker goes on, given the number of its layer, its own number from 0, and the number of its events
    /// in that layer, from 1, which stops at `u64::MAX`.
    fn pass(&self, layer: u64, worker: u8, nth: u64) -> bool
        ensures stops { result ≡ false → may_stop ≡ true }
        ensures answer { may_answer self.now layer worker nth result ≡ true };
}

/// The gate that never stops a worker.
#[derive(Clone, Copy, Default)]
pub struct Free;

impl Gate for Free {
    ghost may_stop = { false };

    ghost may_answer = { λ _ _ _ _ goes_on. goes_on };

    fn pass(&self, _layer: u64, _worker: u8, _nth: u64) -> bool {
        true
    }
}
