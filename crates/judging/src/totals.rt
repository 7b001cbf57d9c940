//! What a report says of all its levels.
ghost use Rattle.std.specs.Prelude.{◌≡◌, ◌==◌, ◌++◌, OnOk, false, true};
ghost use Rattle.std.specs.List.{list_any};
ghost use Rattle.judging.specs.Kinds.{all_missing, count_of, counted, kind_status, totals_words, unsolved_words, worst_status};

use crate::kind::{Group, Kind};
use crate::text::Text;
use crate::words::NoneWithin;
use std::alloc::AllocError;

/// How many of the kinds are of a group.
fn count_of(kinds: &[Kind], group: Group) -> usize
    ensures { result ≡ count_of group kinds.now }
{
    let mut count: usize = 0;
    for kind in kinds {
        count += usize::from(kind.is_in(group));
    }
    count
}

/// Whether no level has a given solution.
pub fn all_missing(kinds: &[Kind]) -> bool
    ensures { result ≡ all_missing kinds.now }
{
    count_of(kinds, Group::Missing) == kinds.len()
}

/// Whether one of the kinds has a status.
fn has_status(kinds: &[Kind], status: u8) -> bool
    ensures { result ≡ list_any (λ kind. kind_status kind == status) kinds.now }
{
    kinds.iter().any(|kind| kind.status() == status)
}

/// The exit status of some levels: the first of 5, 3, 4 and 1 that one of them has, else 0.
pub fn worst_status(kinds: &[Kind]) -> u8
    ensures { result ≡ worst_status kinds.now }
{
    if has_status(kinds, 5) {
        return 5;
    }
    if has_status(kinds, 3) {
        return 3;
    }
    if has_status(kinds, 4) {
        return 4;
    }
    if has_status(kinds, 1) { 1 } else { 0 }
}

/// Appends how many of the kinds are of a group, and what they are.
fn put_counted(
    text: &mut Text,
    group: Group,
    words: &[u8],
    kinds: &[Kind],
) -> Result<(), AllocError>
    ensures { OnOk result (text.new ≡ text.old ++ counted group words.now kinds.now) }
{
    text.put_number(count_of(kinds, group))?;
    text.put(words)
}

/// Appends how levels without a solution are counted: under a cap, those without a solution within it.
fn put_unsolved(text: &mut Text, cap: Option<u32>) -> Result<(), AllocError>
    ensures { OnOk result (text.new ≡ text.old ++ unsolved_words cap) }
{
    match cap {
        None => text.put(b"unsolvable"),
        Some(_) => text.show(&NoneWithin(cap)),
    }
}

/// Appends the totals of levels without given solutions.
fn put_best_totals(text: &mut Text, cap: Option<u32>, kinds: &[Kind]) -> Result<(), AllocError>
    ensures { OnOk result (text.new ≡ text.old ++ totals_words false true cap kinds.now) }
{
    text.put_number(kinds.len())?;
    text.put(b" levels, ")?;
    put_counted(text, Group::Optimal, b" optimal, ", kinds)?;
    put_counted(text, Group::Unsolved, b" ", kinds)?;
    put_unsolved(text, cap)?;
    text.put(b", ")?;
    put_counted(text, Group::Open, b" open, ", kinds)?;
    put_counted(text, Group::NotJudged, b" not judged\n", kinds)
}

/// Appends the totals of levels whose given solutions are proved.
fn put_proved_totals(text: &mut Text, cap: Option<u32>, kinds: &[Kind]) -> Result<(), AllocError>
    ensures { OnOk result (text.new ≡ text.old ++ totals_words true true cap kinds.now) }
{
    text.put_number(kinds.len())?;
    text.put(b" levels, ")?;
    put_counted(text, Group::Optimal, b" optimal, ", kinds)?;
    put_counted(text, Group::Beaten, b" beaten, ", kinds)?;
    put_counted(text, Group::Open, b" open, ", kinds)?;
    put_counted(text, Group::NotJudged, b" not judged, ", kinds)?;
    put_counted(text, Group::Missing, b" without a solution\n", kinds)
}

/// Appends the totals of levels whose given solutions are replayed.
fn put_replayed_totals(text: &mut Text, cap: Option<u32>, kinds: &[Kind]) -> Result<(), AllocError>
    ensures { OnOk result (text.new ≡ text.old ++ totals_words true false cap kinds.now) }
{
    text.put_number(kinds.len())?;
    text.put(b" levels, ")?;
    put_counted(text, Group::Solved, b" solved, ", kinds)?;
    put_counted(text, Group::NotSolved, b" not solved, ", kinds)?;
    put_counted(text, Group::Missing, b" without a solution\n", kinds)
}

/// Appends how many levels there are of each group as a line: of levels without given solutions, or of given ones that are
/// proved or only replayed.
pub fn put_totals(
    text: &mut Text,
    given: bool,
    proves: bool,
    cap: Option<u32>,
    kinds: &[Kind],
) -> Result<(), AllocError>
    ensures { OnOk result (text.new ≡ text.old ++ totals_words given proves cap kinds.now) }
{
    match (given, proves) {
        (true, true) => put_proved_totals(text, cap, kinds),
        (true, false) => put_replayed_totals(text, cap, kinds),
        (false, _) => put_best_totals(text, cap, kinds),
    }
}
