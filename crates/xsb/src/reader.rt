ghost use Rattle.std.specs.Prelude.{◌≡◌, ℕ, ◌+◌, ◌≤◌, ◌<◌, ◌↔◌, List, [], length, IfOk, IfErr, IfNone, IfSome, OnErr, Err};
ghost use Rattle.std.specs.List.{AllZip};
ghost use Rattle.xsb.specs.Collection.{Found, IsCollection};
ghost use Rattle.xsb.specs.Entries.{IsEntry};
ghost use Rattle.xsb.specs.inside.Cursors.{IsAt};
ghost use Rattle.xsb.specs.inside.Progress.{HasRead, GivesNext, lines_left};
ghost use Rattle.xsb.specs.inside.Sources.{GivesSource, Takes};

use crate::boards::{Stretch, read_board};
use crate::entry::{BoardEntry, Entry, ReadFault};
use crate::gaps::read_gap;
use crate::limits::MAX_FILE;
use crate::lines::Lines;
use crate::names::Gap;
use crate::places::BoardSource;
use std::alloc::{AllocError, Global};

/// A board, the lines that it was read from, and the collection after it.
type TakenBoard<'a> = (BoardEntry, Stretch<'a>, Collection<'a>);

/// A collection that is read board by board. Only one board is in memory, unless the caller keeps more.
#[derive(Drop)]
pub struct Collection<'a> {
    /// The lines that are left, from a board on, or none.
    pub(crate) lines: Lines<'a>,
    /// The gap before them.
    pub(crate) before: Gap<'a>,
}

impl<'a> Collection<'a> {
    /// The collection of these bytes, before its first board. Fails with [`ReadFault::TooLong`] for more than
    /// [`MAX_FILE`] bytes, and with no other fault.
    pub fn of(bytes: &'a [u8]) -> Result<Collection<'a>, ReadFault>
        ensures begins { IfOk result (λ left. HasRead bytes.now left []) }
        ensures bound { IfOk result (λ left. lines_left left ≤ MAX_FILE) }
        ensures at_line { IfOk result (λ left. IsAt bytes.now left.lines) }
        ensures too_long { (result ≡ Err ReadFault.TooLong) ↔ (MAX_FILE < length bytes.now) }
        ensures fault { IfErr result (λ fault. (fault ≡ ReadFault.TooLong) × (MAX_FILE < length bytes.now)) }
    {
        if bytes.len() > MAX_FILE {
            return Err(ReadFault::TooLong);
        }
        let mut lines = Lines::of(bytes);
        let before = read_gap(&mut lines);
        Ok(Collection { lines, before })
    }

    /// The next board, as [`read`] gives it, without the tables of a level; `None` after the last, now and in later
    /// calls. Fails only if out of memory. The collection is then unchanged, so the next call tries the same board
    /// again.
    pub fn next_board(&mut self, alloc: Global) -> Result<Option<BoardEntry>, AllocError>
        ensures next { (bytes : List ℕ) (founds : List Found) → HasRead bytes self.old founds →
            IfOk result (GivesNext bytes founds self.new) }
        ensures last { IfOk result (λ next. IfNone next (self.new ≡ self.old)) }
        ensures fewer { IfOk result (λ next. IfSome next (λ _. lines_left self.new < lines_left self.old)) }
        ensures err { OnErr result (self.new ≡ self.old) }
    {
        let Some((entry, _, left)) = self.take_board(alloc)? else {
            return Ok(None);
        };
        *self = left;
        Ok(Some(entry))
    }

    /// The next board with its rows; `None` after the last, now and in later calls. Fails only if out of memory. The
    /// collection is then unchanged, so the next call tries the same board again.
    pub fn next_source(&mut self, alloc: Global) -> Result<Option<BoardSource>, AllocError>
        ensures next { (bytes : List ℕ) (founds : List Found) → HasRead bytes self.old founds → IsAt bytes self.old.lines →
            IfOk result (GivesSource bytes founds self.new) }
        ensures last { IfOk result (λ next. IfNone next (self.new ≡ self.old)) }
        ensures fewer { IfOk result (λ next. IfSome next (λ _. lines_left self.new < lines_left self.old)) }
        ensures err { OnErr result (self.new ≡ self.old) }
    {
        let Some((entry, stretch, left)) = self.take_board(alloc)? else {
            return Ok(None);
        };
        let rows = stretch.rows(alloc)?;
        *self = left;
        Ok(Some(BoardSource { entry, rows }))
    }

    /// The next board, the lines that it was read from, and the collection after it.
    fn take_board(&self, alloc: Global) -> Result<Option<TakenBoard<'a>>, AllocError>
        ensures next { (bytes : List ℕ) (founds : List Found) → HasRead bytes self.now founds →
            IfOk result (Takes bytes founds self.now) }
        ensures few { IfOk result (λ next. IfSome next (λ taken. taken.1.first_line + taken.1.count ≤ MAX_FILE + 1)) }
        ensures fewer { IfOk result (λ next. IfSome next (λ taken. lines_left taken.2 < lines_left self.now)) }
    {
        let mut lines = self.lines.copy();
        let Some(board) = read_board(&mut lines) else {
            return Ok(None);
        };
        let before = read_gap(&mut lines);
        let name = Vec::from_slice(alloc, self.before.name_with(&before))?;
        let judged = board.board(alloc)?;
        let entry = BoardEntry {
            name,
            first_line: board.first_line,
            board: judged,
        };
        Ok(Some((entry, board, Collection { lines, before })))
    }
}

/// The boards of a collection, in order: each with its name, the number of its first line, and its level or its first
/// fault. Fails with [`ReadFault::TooLong`] for more than [`MAX_FILE`] bytes, and with [`ReadFault::OutOfMemory`] if
/// out of memory, also while a level is made.
pub fn read(alloc: Global, bytes: &[u8]) -> Result<Vec<Entry>, ReadFault>
    ensures found { IfOk result (λ entries. (founds : List Found) × IsCollection bytes.now founds ×
        AllZip IsEntry entries.items founds) }
    ensures too_long { (result ≡ Err ReadFault.TooLong) ↔ (MAX_FILE < length bytes.now) }
{
    let mut collection = Collection::of(bytes)?;
    Ok(read_all(alloc, &mut collection)?)
}

/// The entries of all boards of a collection, before its first board is read.
fn read_all(alloc: Global, collection: &mut Collection<'_>) -> Result<Vec<Entry>, AllocError>
    ensures { (bytes : List ℕ) → HasRead bytes collection.old [] →
        IfOk result (λ entries. (founds : List Found) × IsCollection bytes founds ×
        AllZip IsEntry entries.items founds) }
{
    let mut entries = Vec::new(alloc);
    'boards: loop {
        let Some(board) = collection.next_board(alloc)? else {
            break;
        };
        let entry = board.into_entry(alloc)?;
        entries.push(entry)?;
    }
    Ok(entries)
}
