ghost use Rattle.std.specs.Prelude.{◌≡◌, ◌==◌, ◌++◌, ◌<◌, ◌≤◌, OnOk, IfOk, length, flat_map};
ghost use Rattle.grid.specs.Lawful.{row_count};
ghost use Rattle.sokopar.specs.DeadMap.{IsMark, AreMarks, IsMapOf, IsDeadReport, marked_row};
ghost use Rattle.xsb.specs.Boards.{cut_end};
ghost use Rattle.xsb.specs.Written.{rows_from};

use crate::report::Report;
use crate::show::lawful_level;
use doom::Dead;
use grid::{Level, Square};
use judging::Text;
use std::alloc::{AllocError, Global};
use xsb::MAX_FILE;

/// The byte of a square: a wall, a goal, a dead square of the player's room, or any other.
pub(crate) fn mark_of(level: &Level, dead: &Dead, square: Square) -> u8
    requires { dead.now ≡ level.now }
    ensures { IsMark level.now square result }
{
    if level.is_wall(square) {
        b'#'
    } else if level.is_goal(square) {
        b'.'
    } else if level.in_room(square) && dead.is_dead(square) {
        b'x'
    } else {
        b' '
    }
}

/// The bytes of the squares of a level, in order, given its dead squares.
#[tactic(auto, using(crate::proofs::Maps::marks_all))]
fn marks_by(alloc: Global, level: &Level, dead: &Dead) -> Result<Vec<u8>, AllocError>
    requires { dead.now ≡ level.now }
    ensures { IfOk result (λ marks. AreMarks level.now marks.items) }
{
    level.tell();
    let mut marks = Vec::new(alloc);
    for number in 0..level.squares() {
        marks.push(mark_of(level, dead, Square(number as u16)))?;
    }
    Ok(marks)
}

/// The bytes of the squares of a level, in order.
fn marks_of(alloc: Global, level: &Level) -> Result<Vec<u8>, AllocError>
    ensures { IfOk result (λ marks. AreMarks level.now marks.items) }
{
    let dead = Dead::of(alloc, level)?;
    marks_by(alloc, level, &dead)
}

/// A row without the spaces at its end.
#[tactic(auto, using(crate::proofs::Maps::cut_space, crate::proofs::Maps::cut_other))]
fn kept_of(row: &[u8]) -> &[u8]
    ensures { result.now ≡ cut_end (λ b. b == 32) row.now }
{
    let mut kept = row;
    while let Some((last, front)) = kept.split_last() {
        if *last != b' ' {
            return kept;
        }
        kept = front;
    }
    kept
}

/// Appends a row, without the spaces at its end.
fn put_row(text: &mut Text, row: &[u8]) -> Result<(), AllocError>
    ensures { OnOk result (text.new ≡ text.old ++ marked_row row.now) }
{
    text.put(kept_of(row))?;
    text.put(b"\n")
}

/// Appends `rows` rows of `cols` marks each.
pub(crate) fn put_map(
    text: &mut Text,
    rows: usize,
    cols: usize,
    marks: &[u8],
) -> Result<(), AllocError>
    ensures { OnOk result (text.new ≡ text.old ++ flat_map marked_row (rows_from rows cols marks.now)) }
{
    let mut rest = marks;
    for _ in 0..rows {
        let (row, later) = rest.split_at(cols.min(rest.len()));
        put_row(text, row)?;
        rest = later;
    }
    Ok(())
}

/// The report of a level's dead squares.
fn map_of(alloc: Global, level: &Level) -> Result<Report, AllocError>
    ensures { IfOk result (λ report. IsMapOf level.now report) }
{
    let marks = marks_of(alloc, level)?;
    let mut text = Text::new(alloc);
    put_map(&mut text, level.rows(), level.cols(), marks.as_slice())?;
    Ok(Report::new(text, 0))
}

/// The report of the dead squares of level N of a collection.
#[tactic(auto, using(crate::proofs::Reporting::on_level))]
pub(crate) fn dead_in(alloc: Global, bytes: &[u8], number: u32) -> Result<Report, AllocError>
    requires number { 1 ≤ number }
    requires bound { length bytes.now ≤ MAX_FILE }
    ensures { IfOk result (λ report. IsDeadReport number bytes.now report) }
{
    match lawful_level(alloc, bytes, number)? {
        Ok(level) => map_of(alloc, &level),
        Err(report) => Ok(report),
    }
}
