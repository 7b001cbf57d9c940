//! The further faults of a faulty board.
ghost use Rattle.std.specs.Prelude.{◌≡◌, ◌≤◌, ◌++◌, ◌∷◌, [], List, MatchOption, OnOk, codes, cond, drop, is_some, true};
ghost use Rattle.grid.specs.Lawful.{HasFault};
ghost use Rattle.grid.specs.Lawful.{box_count, goal_count};
ghost use Rattle.grid.specs.declared.fault.LevelFault.TheVariants.{Open};
ghost use Rattle.sokopar.specs.Explaining.{AreFaults, remark_words};
ghost use Rattle.sokopar.specs.Report.{fault_words, line};
ghost use Rattle.sokopar.specs.inside.Explaining.{AddsFaults, AreBounded, IsWayOut, board_in, is_of_players, is_open};
ghost use Rattle.sokopar.specs.inside.Explaining.{is_unequal, unequal_faults};
ghost use Rattle.xsb.specs.Collection.{IsJudged};

use crate::check::put_fault;
use crate::faulty::{Kind, is_open, squares_with};
use crate::remark::Remark;
use crate::sentences::put_remark;
use grid::{Level, LevelFault, Square};
use judging::Text;
use std::alloc::{AllocError, Global};
use xsb::BoardRows;

/// Whether the number of players is at fault.
fn is_of_players(fault: LevelFault) -> bool
    ensures { result ≡ is_of_players fault }
{
    matches!(fault, LevelFault::NoPlayer | LevelFault::TwoPlayers)
}

/// What is wrong with these numbers of boxes and goals, if anything.
fn unequal_fault(boxes: usize, goals: usize) -> Option<LevelFault>
    ensures { MatchOption result (unequal_faults boxes goals ≡ [])
        (λ fault. (unequal_faults boxes goals ≡ fault ∷ []) × (is_unequal fault ≡ true)) }
{
    if boxes == 0 {
        return Some(LevelFault::NoBox);
    }
    if boxes == goals {
        return None;
    }
    Some(LevelFault::Counts { boxes, goals })
}

/// Appends a further fault, and the sentences of its remark.
fn put_also(
    text: &mut Text,
    rows: &BoardRows,
    fault: LevelFault,
    remark: &Remark,
) -> Result<(), AllocError>
    requires { 1 ≤ rows.now.cols }
    ensures { OnOk result (text.new ≡ text.old ++ (line (codes "also " ++ fault_words fault) ++
        remark_words rows.now.cols rows.now.places.items remark.now)) }
{
    text.put(b"also ")?;
    put_fault(text, fault)?;
    text.put(b"\n")?;
    put_remark(text, rows, remark)
}

/// Appends what is wrong with the numbers of boxes and goals, if anything, behind a fault of the players.
fn put_unequal(
    alloc: Global,
    text: &mut Text,
    rows: &BoardRows,
    first: LevelFault,
) -> Result<(), AllocError>
    requires bounds { AreBounded rows.now }
    ensures { OnOk result (AddsFaults (board_in rows.now) rows.now.places.items
        (cond (is_of_players first) (unequal_faults (box_count (board_in rows.now)) (goal_count (board_in rows.now))) [])
        text.old text.new) }
{
    if !is_of_players(first) {
        return Ok(());
    }
    let boxes = squares_with(alloc, Kind::Box, rows)?;
    let goals = squares_with(alloc, Kind::Goal, rows)?;
    let Some(fault) = unequal_fault(boxes.len(), goals.len()) else {
        return Ok(());
    };
    put_also(text, rows, fault, &Remark::Unequal { boxes, goals })
}

/// Appends that the player gets out, behind another fault.
fn put_open(
    text: &mut Text,
    rows: &BoardRows,
    first: LevelFault,
    exit: &Option<Square>,
) -> Result<(), AllocError>
    requires bounds { AreBounded rows.now }
    requires exit { IsWayOut (board_in rows.now) exit.now }
    ensures { OnOk result (AddsFaults (board_in rows.now) rows.now.places.items
        (cond (is_open first) [] (cond (is_some exit.now) (Open ∷ []) [])) text.old text.new) }
{
    if is_open(first) {
        return Ok(());
    }
    let Some(square) = exit else {
        return Ok(());
    };
    put_also(text, rows, LevelFault::Open, &Remark::Exit(*square))
}

/// Appends the faults of a board behind its first one, given where the player gets out.
pub(crate) fn put_further(
    alloc: Global,
    text: &mut Text,
    rows: &BoardRows,
    board: &Result<Level, LevelFault>,
    exit: &Option<Square>,
) -> Result<(), AllocError>
    requires bounds { AreBounded rows.now }
    requires judged { IsJudged (board_in rows.now) board.now }
    requires exit { IsWayOut (board_in rows.now) exit.now }
    ensures { OnOk result ((faults : List LevelFault) × AreFaults (board_in rows.now) (is_some exit.now) faults ×
        AddsFaults (board_in rows.now) rows.now.places.items (drop 1 faults) text.old text.new) }
{
    let Err(first) = board else {
        return Ok(());
    };
    put_unequal(alloc, text, rows, *first)?;
    put_open(text, rows, *first, exit)
}
