//! Explaining the levels of a collection: where and why each is faulty or cannot be solved.
ghost use Rattle.std.specs.Prelude.{◌≡◌, ℕ, suc, ◌+◌, ◌≤◌, ◌++◌, ◌∷◌, [], List, Option, length, IfOk, OnOk, true};
ghost use Rattle.std.specs.Prelude.{codes, cond, decimal, false, is_some};
ghost use Rattle.sokopar.specs.Entries.{listed_of};
ghost use Rattle.sokopar.specs.Explaining.{Explains, IsExplainReport, IsRemarkOn, excess_words, explained};
ghost use Rattle.sokopar.specs.Explaining.{is_drawn, is_quiet, is_unsolvable, is_wanted};
ghost use Rattle.sokopar.specs.Listing.{IsLevelListing, Listed};
ghost use Rattle.sokopar.specs.Report.{check_line, good_count, line};
ghost use Rattle.sokopar.specs.declared.remark.Remark.{Remark};
ghost use Rattle.sokopar.specs.inside.Explaining.{AreBounded, HaveBroken, IsWayOut, board_in, unsolvable_words};
ghost use Rattle.sokopar.specs.inside.Pages.{IsPage, IsSourceOf, Tells};
ghost use Rattle.xsb.specs.Collection.{Found, IsJudged};
ghost use Rattle.xsb.specs.Entries.{IsBoardEntry};
ghost use Rattle.xsb.specs.inside.Sources.{HasSource};

use crate::check::{good_with, put_counts, put_line};
use crate::doomed::remark_of_level;
use crate::faulty::{Kind, exit_of, remark_of_fault, squares_with};
use crate::further::put_further;
use crate::picture::put_drawn;
use crate::remark::Remark;
use crate::report::Report;
use crate::sentences::{put_broken, put_excess, put_foreign, put_remark};
use crate::show::no_level;
use grid::{Level, LevelFault, Square};
use judging::Text;
use std::alloc::{AllocError, Global};
use xsb::{
    BoardEntry, BoardRows, BoardSource, BrokenRow, BrokenRows, Collection, Excess, MAX_FILE,
    first_foreign,
};

/// The text so far, whether nothing was found so far, and how many levels are found unsolvable.
#[derive(Drop)]
struct Page {
    text: Text,
    sound: bool,
    lost: usize,
}

/// The broken rows that are left.
#[derive(Drop)]
struct Broken<'a> {
    rows: BrokenRows<'a>,
    /// The first of them.
    first: Option<BrokenRow>,
}

/// Whether a level is wanted: all are, or one by its number.
fn is_wanted(wanted: Option<u32>, number: usize) -> bool
    ensures { result ≡ is_wanted wanted number }
{
    match wanted {
        None => true,
        Some(wanted) => wanted as usize == number,
    }
}

/// Whether the gap before level `number` is beside a level that is wanted.
fn is_beside(wanted: Option<u32>, number: usize) -> bool {
    is_wanted(wanted, number) || is_wanted(wanted, number.saturating_sub(1))
}

/// The broken rows of a collection.
fn broken_of<'a>(bytes: &'a [u8]) -> Broken<'a>
    requires { length bytes.now ≤ MAX_FILE }
    ensures { HaveBroken bytes.now result.rows result.first }
{
    let mut rows = BrokenRows::of(bytes);
    let first = rows.next_row();
    Broken { rows, first }
}

/// Appends the lines of the broken rows before a line of the file, or passes these over.
fn put_gap(
    page: &mut Page,
    broken: &mut Broken<'_>,
    line: u32,
    shown: bool,
) -> Result<(), AllocError>
    ensures { (bytes : List ℕ) (wanted : Option ℕ) (listing : List Listed) →
        IsPage bytes wanted listing page.old broken.old →
        OnOk result (IsPage bytes wanted listing page.new broken.new) }
{
    'rows: while let Some(row) = broken.first {
        if row.line >= line {
            break;
        }
        broken.first = broken.rows.next_row();
        if shown {
            put_broken(&mut page.text, row)?;
            page.sound = false;
        }
    }
    Ok(())
}

/// `check`'s line of a level.
fn head_of(alloc: Global, number: usize, entry: &BoardEntry) -> Result<Text, AllocError>
    ensures { IfOk result (λ head. head ≡ check_line number (listed_of entry.now)) }
{
    let mut head = Text::new(alloc);
    put_line(&mut head, number, entry)?;
    Ok(head)
}

/// Where the player gets out of a faulty board; `None` if nowhere, or if the level is lawful.
fn exit_in(
    alloc: Global,
    board: &Result<Level, LevelFault>,
    rows: &BoardRows,
) -> Result<Option<Square>, AllocError>
    requires bounds { AreBounded rows.now }
    requires judged { IsJudged (board_in rows.now) board.now }
    ensures { IfOk result (IsWayOut (board_in rows.now)) }
{
    match board {
        Ok(_) => Ok(None),
        Err(_) => exit_of(alloc, rows),
    }
}

/// The remark on a level, given where the player gets out.
fn remark_of(
    alloc: Global,
    board: &Result<Level, LevelFault>,
    rows: &BoardRows,
    exit: &Option<Square>,
) -> Result<Remark, AllocError>
    requires bounds { AreBounded rows.now }
    requires judged { IsJudged (board_in rows.now) board.now }
    requires exit { IsWayOut (board_in rows.now) exit.now }
    ensures { IfOk result (IsRemarkOn board.now (board_in rows.now)) }
{
    match board {
        Ok(level) => {
            let boxes = squares_with(alloc, Kind::Box, rows)?;
            let goals = squares_with(alloc, Kind::Goal, rows)?;
            remark_of_level(alloc, level, boxes.as_slice(), goals.as_slice())
        }
        Err(fault) => remark_of_fault(alloc, *fault, rows, exit),
    }
}

/// Whether nothing is written of a level.
fn is_quiet(remark: &Remark, wanted: Option<u32>) -> bool
    ensures { result ≡ is_quiet remark.now wanted }
{
    remark.is_sound() && wanted.is_none()
}

/// Whether the board is shown.
fn is_drawn(exit: &Option<Square>, wanted: Option<u32>) -> bool
    ensures { result ≡ is_drawn (is_some exit.now) wanted }
{
    exit.is_some() || wanted.is_some()
}

/// The number of levels found unsolvable with one level more.
fn lost_with(lost: usize, remark: &Remark) -> Result<usize, AllocError>
    ensures { IfOk result (λ more. more ≡ cond (is_unsolvable remark.now) (lost + 1) lost) }
{
    if !remark.is_unsolvable() {
        return Ok(lost);
    }
    lost.checked_add(1).ok_or(AllocError)
}

/// Appends what is written of a level against which this is found.
fn put_found(
    alloc: Global,
    page: &mut Page,
    head: &Text,
    rows: &BoardRows,
    board: &Result<Level, LevelFault>,
    remark: &Remark,
    exit: &Option<Square>,
    wanted: Option<u32>,
) -> Result<(), AllocError>
    requires bounds { AreBounded rows.now }
    requires judged { IsJudged (board_in rows.now) board.now }
    requires remark { IsRemarkOn board.now (board_in rows.now) remark.now }
    requires exit { IsWayOut (board_in rows.now) exit.now }
    ensures { (n : ℕ) (listed : Listed) → head.now ≡ check_line n listed → board.now ≡ listed.board →
        OnOk result (Tells wanted n listed (board_in rows.now) rows.now.places.items remark.now page.old page.new) }
{
    if is_quiet(remark, wanted) {
        return Ok(());
    }
    page.text.put(head.as_slice())?;
    put_remark(&mut page.text, rows, remark)?;
    put_further(alloc, &mut page.text, rows, board, exit)?;
    page.sound &= remark.is_sound();
    let lost = lost_with(page.lost, remark)?;
    page.lost = lost;
    if is_drawn(exit, wanted) {
        return put_drawn(alloc, &mut page.text, rows, board);
    }
    Ok(())
}

/// Appends what is written of a level that is not too large.
fn put_judged(
    alloc: Global,
    page: &mut Page,
    head: &Text,
    entry: BoardEntry,
    rows: &BoardRows,
    wanted: Option<u32>,
) -> Result<(), AllocError>
    requires bounds { AreBounded rows.now }
    requires judged { IsJudged (board_in rows.now) entry.board }
    ensures { (n : ℕ) → head.now ≡ check_line n (listed_of entry) →
        OnOk result ((remark : Remark) × IsRemarkOn entry.board (board_in rows.now) remark ×
        Tells wanted n (listed_of entry) (board_in rows.now) rows.now.places.items remark page.old page.new) }
{
    let listed = entry.into_entry(alloc)?;
    let exit = exit_in(alloc, &listed.board, rows)?;
    let remark = remark_of(alloc, &listed.board, rows, &exit)?;
    put_found(
        alloc,
        page,
        head,
        rows,
        &listed.board,
        &remark,
        &exit,
        wanted,
    )
}

/// Appends what is written of a level that is too large.
fn put_large(page: &mut Page, head: &Text, excess: Excess) -> Result<(), AllocError>
    ensures { (n : ℕ) (listed : Listed) → head.now ≡ check_line n listed →
        OnOk result ((page.new.text ≡ page.old.text ++ check_line n listed ++ excess_words excess) ×
        (page.new.sound ≡ false) × (page.new.lost ≡ page.old.lost)) }
{
    page.text.put(head.as_slice())?;
    put_excess(&mut page.text, excess)?;
    page.sound = false;
    Ok(())
}

/// Appends what is written of a level that is wanted.
fn put_level(
    alloc: Global,
    page: &mut Page,
    number: usize,
    source: BoardSource,
    wanted: Option<u32>,
) -> Result<(), AllocError>
    requires { (found : Found) × IsSourceOf source found }
    ensures { (bytes : List ℕ) (found : Found) (listing : List Listed) → number ≡ suc (length listing) →
        IsBoardEntry source.entry found → HasSource bytes found source.rows → is_wanted wanted number ≡ true →
        Explains bytes wanted listing page.old.text page.old.sound page.old.lost → OnOk result
        (Explains bytes wanted (listing ++ listed_of source.entry ∷ []) page.new.text page.new.sound page.new.lost) }
{
    let BoardSource { entry, rows } = source;
    let head = head_of(alloc, number, &entry)?;
    match rows {
        Ok(rows) => put_judged(alloc, page, &head, entry, &rows, wanted),
        Err(excess) => put_large(page, &head, excess),
    }
}

/// Appends what is written of the gap before a level, and of the level if it is wanted.
fn put_next(
    alloc: Global,
    page: &mut Page,
    broken: &mut Broken<'_>,
    number: usize,
    source: BoardSource,
    wanted: Option<u32>,
) -> Result<(), AllocError>
    requires { (found : Found) × IsSourceOf source found }
    ensures { (bytes : List ℕ) (found : Found) (listing : List Listed) → number ≡ suc (length listing) →
        IsBoardEntry source.entry found → HasSource bytes found source.rows →
        IsPage bytes wanted listing page.old broken.old →
        OnOk result (IsPage bytes wanted (listing ++ listed_of source.entry ∷ []) page.new broken.new) }
{
    let shown = is_beside(wanted, number);
    put_gap(page, broken, source.entry.first_line, shown)?;
    if !is_wanted(wanted, number) {
        drop(source);
        return Ok(());
    }
    put_level(alloc, page, number, source, wanted)
}

/// Appends which line of a collection without levels looks like a board of other characters.
fn put_strange(page: &mut Page, bytes: &[u8], levels: usize) -> Result<(), AllocError>
    requires { length bytes.now ≤ MAX_FILE }
    ensures { (wanted : Option ℕ) (listing : List Listed) → levels ≡ length listing →
        IsLevelListing bytes.now listing →
        Explains bytes.now wanted listing page.old.text page.old.sound page.old.lost →
        OnOk result (Explains bytes.now wanted listing page.new.text page.new.sound page.new.lost) }
{
    if levels > 0 {
        return Ok(());
    }
    let Some(line) = first_foreign(bytes) else {
        return Ok(());
    };
    put_foreign(&mut page.text, line)?;
    page.sound = false;
    Ok(())
}

/// Appends how many of the levels are found unsolvable, if any.
fn put_unsolvable(text: &mut Text, lost: usize) -> Result<(), AllocError>
    ensures { OnOk result (text.new ≡ text.old ++ unsolvable_words lost) }
{
    if lost == 0 {
        return Ok(());
    }
    text.put(b", ")?;
    text.put_number(lost)?;
    text.put(b" of them unsolvable")
}

/// Appends the line of totals.
fn put_summary(text: &mut Text, levels: usize, good: usize, lost: usize) -> Result<(), AllocError>
    ensures { OnOk result (text.new ≡ text.old ++ line (decimal levels ++ codes " levels, " ++ decimal good ++
        codes " good" ++ unsolvable_words lost)) }
{
    put_counts(text, levels, good)?;
    put_unsolvable(text, lost)?;
    text.put(b"\n")
}

/// The report of what was written.
fn report_of(
    alloc: Global,
    page: Page,
    levels: usize,
    good: usize,
    wanted: Option<u32>,
) -> Result<Report, AllocError>
    ensures { (listing : List Listed) → levels ≡ length listing → good ≡ good_count listing →
        IfOk result (λ report. report ≡ explained wanted listing page.text page.sound page.lost) }
{
    let Page {
        mut text,
        sound,
        lost,
    } = page;
    let status = if sound { 0 } else { 1 };
    match wanted {
        None => put_summary(&mut text, levels, good, lost)?,
        Some(number) => {
            if levels < number as usize {
                return no_level(alloc, number);
            }
        }
    }
    Ok(Report::new(text, status))
}

/// The report of explaining the levels of a collection, or the one that is wanted.
pub(crate) fn explain_in(
    alloc: Global,
    bytes: &[u8],
    wanted: Option<u32>,
) -> Result<Report, AllocError>
    requires { length bytes.now ≤ MAX_FILE }
    ensures { IfOk result (λ report. IsExplainReport wanted bytes.now report) }
{
    let Ok(mut collection) = Collection::of(bytes) else {
        unreachable!();
    };
    let mut broken = broken_of(bytes);
    let text = Text::new(alloc);
    let mut page = Page {
        text,
        sound: true,
        lost: 0,
    };
    let mut levels = 0;
    let mut good = 0;
    'boards: loop {
        let Some(source) = collection.next_source(alloc)? else {
            break;
        };
        levels += 1;
        good = good_with(good, &source.entry);
        put_next(alloc, &mut page, &mut broken, levels, source, wanted)?;
    }
    let shown = is_beside(wanted, levels + 1);
    put_gap(&mut page, &mut broken, u32::MAX, shown)?;
    put_strange(&mut page, bytes, levels)?;
    report_of(alloc, page, levels, good, wanted)
}
