ghost use Rattle.std.specs.Prelude.{◌≡◌, [], ◌∷◌, ◌++◌, ◌≤◌, length, take, IfOk, OnErr};
ghost use Rattle.std.specs.Io.KnownBytes.{ReadConsumes};
ghost use Rattle.sokopar.specs.Ends.{Seen, moved, failed, untouched_end};

use crate::trail::{Failed, Past, Trail};
use std::fmt;
use std::fmt::{Debug, Formatter};
use std::io::Read;

/// What an engine reads a file from.
pub trait Source {
    // what its reads did so far, and the bytes that it has left, if these are known
    ghost seen: { Self → Seen };

    /// Reads bytes into the front of the buffer, and returns their number; zero means end of file.
    fn read(&mut self, buffer: &mut [u8]) -> Result<usize, Failed>
        requires room { 1 ≤ length buffer.old }
        ensures bound { IfOk result (λ n. n ≤ length buffer.new) }
        ensures ok { IfOk result (λ n. (seen self.new).acts ≡ (seen self.old).acts ++ moved (take n buffer.new) ∷ []) }
        ensures err { OnErr result ((seen self.new).acts ≡ (seen self.old).acts ++ failed ∷ []) }
        ensures bytes { ReadConsumes (seen self.old).known (seen self.new).known result buffer.new };
}

/// A reader of std as a source.
#[derive(Drop)]
pub struct Reader<R: Read> {
    reader: R,
    trail: Trail,
}

impl<R: Read + Drop> Reader<R> {
    /// The source of the bytes that the reader has left.
    pub fn new(reader: R) -> Reader<R>
        ensures { ⟦<Reader<R> as Source>⟧.seen result ≡ untouched_end (R.remaining reader) }
    {
        Reader {
            reader,
            trail: Trail::of(&Past::Nothing),
        }
    }
}

impl<R: Read + Drop> Source for Reader<R> {
    ghost seen = { λ it. record { acts = it.trail.acts; known = R.remaining it.reader } };

    fn read(&mut self, buffer: &mut [u8]) -> Result<usize, Failed> {
        match self.reader.read(buffer) {
            Ok(count) => {
                self.trail = Trail::of(&Past::Moved(&self.trail, &buffer[..count]));
                Ok(count)
            }
            Err(_) => {
                self.trail = Trail::of(&Past::Failed(&self.trail));
                Err(Failed)
            }
        }
    }
}

impl<R: Read + Debug> Debug for Reader<R> {
    fn fmt<W: fmt::Write>(&self, f: &mut Formatter<W>) -> fmt::Result {
        f.debug_struct("Reader")
            .field("reader", &self.reader)
            .finish()
    }
}
