//! The line of a level in a report on several.
ghost use Rattle.std.specs.Prelude.{◌≡◌, ◌++◌, Bool, OnOk, [], codes, decimal};
ghost use Rattle.judging.specs.Kinds.{found_of};
ghost use Rattle.judging.specs.Table.{head_of, letters_between, letters_line, level_line};
ghost use Rattle.judging.specs.inside.Entries.{entry_listed};
ghost use Rattle.judging.specs.Words.{judgement_words, line};

use crate::judgement::{Judgement, Known, Settings};
use crate::row::put_row;
use crate::text::Text;
use crate::words::JudgementWords;
use std::alloc::AllocError;
use xsb::Entry;

/// The first line of a report on levels: a table has the names of its columns.
pub fn head_of(table: bool) -> &'static [u8]
    ensures { result.now ≡ head_of table }
{
    if table {
        b"level\tline\tboxes\tverdict\tproved\tgiven_pushes\tgiven_moves\tpushes\tmoves\tat_least\tlimit\tname\tsolution\n"
    } else {
        b""
    }
}

/// Appends the letters of the solution that was found between two texts; nothing if there is none.
pub(crate) fn put_letters_between(
    text: &mut Text,
    before: &[u8],
    after: &[u8],
    judgement: &Judgement,
) -> Result<(), AllocError>
    ensures { OnOk result (text.new ≡ text.old ++ letters_between before.now after.now (found_of judgement.now)) }
{
    match judgement {
        Judgement::Searched(
            Known {
                found: Some(found),
                ..
            },
        ) => {
            text.put(before)?;
            text.put_letters(&found.letters)?;
            text.put(after)
        }
        _ => Ok(()),
    }
}

/// Appends the solution that was found as a line, if there is one.
pub fn put_letters_line(text: &mut Text, judgement: &Judgement) -> Result<(), AllocError>
    ensures { OnOk result (text.new ≡ text.old ++ letters_line judgement.now) }
{
    put_letters_between(text, b"", b"\n", judgement)
}

/// Appends a judgement in words.
pub fn put_judgement(
    text: &mut Text,
    settings: Settings,
    judgement: &Judgement,
) -> Result<(), AllocError>
    ensures { OnOk result (text.new ≡ text.old ++ judgement_words settings judgement.now) }
{
    text.show(&JudgementWords(settings, judgement))
}

/// Appends the line of a level in words.
fn put_words(
    text: &mut Text,
    number: u32,
    settings: Settings,
    judgement: &Judgement,
) -> Result<(), AllocError>
    ensures { OnOk result (text.new ≡ text.old ++
        line (decimal number ++ codes " " ++ judgement_words settings judgement.now ++
        letters_between (codes "  ") [] (found_of judgement.now))) }
{
    text.put_number(number as usize)?;
    text.put(b" ")?;
    put_judgement(text, settings, judgement)?;
    put_letters_between(text, b"  ", b"", judgement)?;
    text.put(b"\n")
}

/// Appends the line of a level, as a row of a table or in words; nothing if no solution is given.
pub fn put_level_line(
    text: &mut Text,
    table: bool,
    settings: Settings,
    number: u32,
    entry: &Entry,
    judgement: &Judgement,
) -> Result<(), AllocError>
    ensures { OnOk result (text.new ≡ text.old ++
        level_line table settings number (entry_listed entry.now) judgement.now) }
{
    match judgement {
        Judgement::Missing => Ok(()),
        _ if table => put_row(text, number, entry, settings, judgement),
        _ => put_words(text, number, settings, judgement),
    }
}
