ghost use Rattle.std.specs.Prelude.{◌≡◌};

use std::io;
use std::io::{ErrorKind, Read, Write};

/// A file or a stream that repeats a read or a write that a signal interrupted. The bytes that it has left or holds, if
/// they are known, are those of the stream inside.
#[derive(Drop)]
pub(crate) struct Steady<E> {
    end: E,
}

impl<E: Drop> Steady<E> {
    /// The stream that repeats calls of this one.
    pub(crate) fn new(end: E) -> Steady<E>
        ensures { result.end ≡ end }
    {
        Steady { end }
    }
}

impl<E: Read + Drop> Read for Steady<E> {
    ghost remaining = { λ it. E.remaining it.end };

    fn read(&mut self, buffer: &mut [u8]) -> io::Result<usize> {
        for _ in 0..u64::MAX {
            match self.end.read(buffer) {
                Err(error) if error.kind() == ErrorKind::Interrupted => {}
                answer => return answer,
            }
        }
        Err(io::Error::from(ErrorKind::Interrupted))
    }
}

impl<E: Write + Drop> Write for Steady<E> {
    ghost contents = { λ it. E.contents it.end };

    fn write(&mut self, bytes: &[u8]) -> io::Result<usize> {
        for _ in 0..u64::MAX {
            match self.end.write(bytes) {
                Err(error) if error.kind() == ErrorKind::Interrupted => {}
                answer => return answer,
            }
        }
        Err(io::Error::from(ErrorKind::Interrupted))
    }

    fn flush(&mut self) -> io::Result<()> {
        self.end.flush()
    }
}
