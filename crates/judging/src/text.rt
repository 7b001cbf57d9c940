ghost use Rattle.std.specs.Prelude.{◌≡◌, [], ◌++◌, OnOk, OnErr, ℕ, List, Some, decimal};
ghost use Rattle.lurd.specs.Text.{bytes_of};
ghost use Rattle.xsb.specs.Written.{written};

use grid::{Level, Moves};
use itoa::Buffer;
use std::alloc::{AllocError, Global};
use std::fmt;
use std::fmt::Write;
use std::marker::Model;
use xsb::write;

/// The least number of bytes by which a text grows.
const LEAST_ROOM: usize = 64;

/// A number, which prints by `itoa`.
#[derive(Clone, Copy)]
pub struct Number(pub usize);

impl fmt::Display for Number {
    ghost output = { λ number. Some (decimal number.0) };

    fn fmt<W: fmt::Write>(&self, f: &mut fmt::Formatter<W>) -> fmt::Result {
        f.write_str(Buffer::new().format(self.0))
    }
}

/// A text to append to. Each call fails only if out of memory.
#[derive(Drop)]
pub struct Text {
    bytes: Vec<u8>,
}

impl Model for Text {
    ghost use Rattle.std.specs.Prelude.{ℕ, List};

    ghost Value = { List ℕ };

    ghost view = { λ a. a.bytes.items };
}

impl Text {
    /// An empty text.
    pub fn new(alloc: Global) -> Text
        ensures { result ≡ [] }
    {
        Text {
            bytes: Vec::new(alloc),
        }
    }

    /// Appends words. If it fails, the text is unchanged.
    pub fn put(&mut self, words: &[u8]) -> Result<(), AllocError>
        ensures ok { OnOk result (self.new ≡ self.old ++ words.now) }
        ensures err { OnErr result (self.new ≡ self.old) }
    {
        self.make_room(words.len())?;
        self.bytes.extend_from_slice(words)?;
        Ok(())
    }

    /// Reserves capacity for more bytes. If it must grow, it grows by at least a quarter, so that a long text has
    /// little to spare.
    fn make_room(&mut self, more: usize) -> Result<(), AllocError>
        ensures { self.new ≡ self.old }
    {
        if self.bytes.capacity() < self.bytes.len().saturating_add(more) {
            let spare = more.max(self.bytes.len() / 4).max(LEAST_ROOM);
            self.bytes.reserve_exact(spare)?;
        }
        Ok(())
    }

    // Appends what a value prints.
    #[tactic(auto, using(crate::proofs::Writes::wrote))]
    fn print<D: fmt::Display>(&mut self, value: &D) -> fmt::Result
        ensures { (bs : List ℕ) → D.output value.now ≡ Some bs → OnOk result (self.new ≡ self.old ++ bs) }
    {
        write!(self, "{value}")
    }

    /// Appends what a value prints.
    pub fn show<D: fmt::Display>(&mut self, value: &D) -> Result<(), AllocError>
        ensures { (bs : List ℕ) → D.output value.now ≡ Some bs → OnOk result (self.new ≡ self.old ++ bs) }
    {
        match self.print(value) {
            Ok(()) => Ok(()),
            Err(_) => Err(AllocError),
        }
    }

    /// Appends a number in decimal digits. If it fails, the text is unchanged.
    pub fn put_number(&mut self, number: usize) -> Result<(), AllocError>
        ensures ok { OnOk result (self.new ≡ self.old ++ decimal number) }
        ensures err { OnErr result (self.new ≡ self.old) }
    {
        self.put(Buffer::new().format(number).as_bytes())
    }

    /// Appends the rows of a level. If it fails, the text is unchanged.
    pub fn put_rows(&mut self, level: &Level) -> Result<(), AllocError>
        ensures ok { OnOk result (self.new ≡ self.old ++ written level.now) }
        ensures err { OnErr result (self.new ≡ self.old) }
    {
        write(level, &mut self.bytes)
    }

    /// Appends the letters of moves. If it fails, the text is unchanged.
    pub fn put_letters(&mut self, moves: &Moves) -> Result<(), AllocError>
        ensures ok { OnOk result (self.new ≡ self.old ++ bytes_of moves.now) }
        ensures err { OnErr result (self.new ≡ self.old) }
    {
        lurd::write(moves, &mut self.bytes)
    }

    /// The text's bytes.
    pub fn as_slice(&self) -> &[u8]
        ensures { result.now ≡ self.now }
    {
        self.bytes.as_slice()
    }
}

impl Write for Text {
    ghost write_str_gives = { λ s bs t. t ≡ s ++ bs };

    fn write_str(&mut self, s: &str) -> fmt::Result {
        match self.put(s.as_bytes()) {
            Ok(()) => Ok(()),
            Err(_) => Err(fmt::Error),
        }
    }
}
