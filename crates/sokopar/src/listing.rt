ghost use Rattle.std.specs.Prelude.{◌≤◌, length, IfOk};
ghost use Rattle.sokopar.specs.Listing.{IsLevelAt};

use grid::{Level, LevelFault};
use std::alloc::{AllocError, Global};
use xsb::{Collection, MAX_FILE};

/// The level of a command, or its fault; `None` if the collection has fewer levels.
pub(crate) type Chosen = Option<Result<Level, LevelFault>>;

/// Level N of a collection, counted from 1. It judges all boards, one after the other, and makes a level only of this
/// one.
pub(crate) fn level_of(alloc: Global, bytes: &[u8], number: u32) -> Result<Chosen, AllocError>
    requires number { 1 ≤ number }
    requires bound { length bytes.now ≤ MAX_FILE }
    ensures { IfOk result (IsLevelAt bytes.now number) }
{
    let Ok(mut collection) = Collection::of(bytes) else {
        unreachable!();
    };
    let mut chosen = None;
    let mut count = 0;
    'boards: loop {
        let Some(entry) = collection.next_board(alloc)? else {
            break;
        };
        count += 1;
        if count == number as usize {
            let listed = entry.into_entry(alloc)?;
            chosen = Some(listed.board);
        }
    }
    Ok(chosen)
}
