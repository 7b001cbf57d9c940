ghost use Rattle.std.specs.Prelude.{◌≡◌, [], ◌∷◌, ◌++◌, ◌≤◌, length, take, IfOk, OnErr};
ghost use Rattle.std.specs.Io.KnownBytes.{WriteAppends};
ghost use Rattle.sokopar.specs.Ends.{Seen, moved, failed, untouched_end};

use crate::trail::{Failed, Past, Trail};
use std::fmt;
use std::fmt::{Debug, Formatter};
use std::io::Write;

/// The destination of a report.
pub trait Sink {
    // what its writes did so far, and the bytes that it holds, if these are known
    ghost seen: { Self → Seen };

    /// Writes bytes from the front of the text, at least one, and returns their number.
    fn write(&mut self, text: &[u8]) -> Result<usize, Failed>
        requires some { 1 ≤ length text.now }
        ensures bound { IfOk result (λ n. (1 ≤ n) × (n ≤ length text.now)) }
        ensures ok { IfOk result (λ n. (seen self.new).acts ≡ (seen self.old).acts ++ moved (take n text.now) ∷ []) }
        ensures err { OnErr result ((seen self.new).acts ≡ (seen self.old).acts ++ failed ∷ []) }
        ensures bytes { WriteAppends (seen self.old).known (seen self.new).known result text.now };
}

/// A writer of std as a sink. A write of zero bytes is a failure.
#[derive(Drop)]
pub struct Writer<W: Write> {
    writer: W,
    trail: Trail,
}

impl<W: Write + Drop> Writer<W> {
    /// The sink that writes to this writer.
    pub fn new(writer: W) -> Writer<W>
        ensures { ⟦<Writer<W> as Sink>⟧.seen result ≡ untouched_end (W.contents writer) }
    {
        Writer {
            writer,
            trail: Trail::of(&Past::Nothing),
        }
    }
}

impl<W: Write + Drop> Sink for Writer<W> {
    ghost seen = { λ it. record { acts = it.trail.acts; known = W.contents it.writer } };

    #[tactic(auto, using(crate::proofs::Acts::keeps_none))]
    fn write(&mut self, text: &[u8]) -> Result<usize, Failed> {
        match self.writer.write(text) {
            Ok(count) if count > 0 => {
                self.trail = Trail::of(&Past::Moved(&self.trail, &text[..count]));
                Ok(count)
            }
            _ => {
                self.trail = Trail::of(&Past::Failed(&self.trail));
                Err(Failed)
            }
        }
    }
}

impl<W: Write + Debug> Debug for Writer<W> {
    fn fmt<F: fmt::Write>(&self, f: &mut Formatter<F>) -> fmt::Result {
        f.debug_struct("Writer")
            .field("writer", &self.writer)
            .finish()
    }
}
