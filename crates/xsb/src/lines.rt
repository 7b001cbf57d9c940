//! Lines of a collection.
ghost use Rattle.std.specs.Prelude.{◌≡◌, ◌≤◌, ◌<◌, ◌+◌, [], length, drop, MatchOption};
ghost use Rattle.bstr.specs.Text.{lines_of};
ghost use Rattle.xsb.specs.declared.limits.TheConstants.{MAX_FILE};
ghost use Rattle.xsb.specs.Lines.{lines_of_text, without_last, without_mark};
ghost use Rattle.xsb.specs.inside.Reading.{IsNextLine, cut_line, cut_lines};

use crate::bytes::{CARRIAGE_RETURN, LINE_FEED};
use crate::limits::MAX_FILE;
use bstr::{ByteSlice, LinesWithTerminator};

/// The byte order mark, which may begin a text and only says how it is encoded.
const BYTE_ORDER_MARK: [u8; 3] = [0xEF, 0xBB, 0xBF];

/// The lines of a collection, from one of them on.
#[derive(Drop)]
pub(crate) struct Lines<'a> {
    pub(crate) rest: LinesWithTerminator<'a>,
    /// The number of the next line, from 1.
    pub(crate) number: u32,
    ghost few: { number + length rest ≤ MAX_FILE + 1 },
}

impl<'a> Lines<'a> {
    /// All lines of a collection.
    pub(crate) fn of(bytes: &'a [u8]) -> Lines<'a>
        requires { length bytes.now ≤ MAX_FILE }
        ensures lines { cut_lines result.rest ≡ lines_of_text bytes.now }
        ensures first { result.number ≡ 1 }
    {
        let text = without_mark(bytes);
        Lines {
            rest: text.lines_with_terminator(),
            number: 1,
        }
    }

    /// A copy of the iterator.
    pub(crate) fn copy(&self) -> Lines<'a>
        ensures rest { result.rest ≡ self.now.rest }
        ensures number { result.number ≡ self.now.number }
    {
        Lines {
            rest: self.rest.clone().unwrap(),
            number: self.number,
        }
    }

    /// The next line, without its end. `None` at the end of the bytes.
    pub(crate) fn peek(&self) -> Option<&'a [u8]>
        ensures { MatchOption result (self.now.rest ≡ []) (λ line. IsNextLine self.now.rest line.now) }
    {
        let mut rest = self.rest.clone().unwrap();
        let raw = rest.next()?;
        Some(cut_line(raw))
    }

    /// Skips the next line.
    pub(crate) fn skip(&mut self)
        requires { 0 < length self.old.rest }
        ensures rest { self.new.rest ≡ drop 1 self.old.rest }
        ensures number { self.new.number ≡ self.old.number + 1 }
    {
        let _ = self.rest.next();
        self.number += 1;
    }
}

/// The bytes without a byte order mark at the beginning.
fn without_mark(bytes: &[u8]) -> &[u8]
    ensures { result.now ≡ without_mark bytes.now }
{
    if bytes.starts_with(&BYTE_ORDER_MARK) {
        return &bytes[BYTE_ORDER_MARK.len()..];
    }
    bytes
}

/// The bytes without this byte at the end.
fn without_last(byte: u8, bytes: &[u8]) -> &[u8]
    ensures { result.now ≡ without_last byte bytes.now }
{
    if let Some((last, before)) = bytes.split_last() {
        if *last == byte {
            return before;
        }
    }
    bytes
}

/// A line without its line feed, and without a carriage return before that.
pub(crate) fn cut_line(raw: &[u8]) -> &[u8]
    ensures { result.now ≡ cut_line raw.now }
{
    without_last(CARRIAGE_RETURN, without_last(LINE_FEED, raw))
}
