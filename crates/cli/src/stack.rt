//! The stack of the main thread. The system enlarges it while calls go deeper, and ends the program by a signal at the
//! limit on the stack, or if no address space is left. So the program enlarges it at its start, where it can still
//! report that it is out of memory.
ghost use Rattle.std.specs.Prelude.{◌<◌};

use std::alloc::{AllocError, Global};
use std::rt::Files;
use std::{fs, io};

/// The bytes of stack that the program has from its start on. Its deepest call, and the deepest one of a worker, need
/// 235 KB (measured).
const STACK: usize = 288 * 1024;

/// The least limit on the stack. It leaves 160 KB above [`STACK`], of which the arguments and the environment take up
/// to 128 KB. They may take a quarter of a limit above 512 KB.
const LEAST_LIMIT: u64 = 448 * 1024;

/// Where Linux lists the limits of the process that reads it.
const LIMITS: &str = "/proc/self/limits";

/// How the line of the limit on the stack begins.
const OF_STACK: &str = "Max stack size";

/// The bytes of a page: the system enlarges a stack by pages.
const PAGE: usize = 4096;

/// The byte that each page passes to the next.
const MARK: u8 = 1;

/// Enlarges the stack to [`STACK`] bytes. Fails only if the limit on the stack is below [`LEAST_LIMIT`], or if there is
/// no address space for the stack.
pub(crate) fn enlarge<R: Files>(rt: &R, alloc: Global) -> Result<(), AllocError> {
    if limit(rt, alloc).is_some_and(|limit| limit < LEAST_LIMIT) {
        return Err(AllocError);
    }
    let mut room = Vec::with_capacity(alloc, STACK)?;
    room.push(MARK)?;
    let is_there = room.as_slice().iter().all(|byte| *byte == MARK);
    drop(room);
    // the two tests keep the compiler from removing the reservation and the writes
    if is_there && touch_pages(STACK / PAGE, &[MARK; PAGE]) == MARK {
        Ok(())
    } else {
        Err(AllocError)
    }
}

/// The limit on the stack in bytes. `None` if there is none, or if the list of limits cannot be read.
fn limit<R: Files>(rt: &R, alloc: Global) -> Option<u64> {
    let file = fs::open(rt, LIMITS).ok()?;
    let list = io::read_to_string(alloc, file).ok()?;
    for line in list.lines() {
        if let Some(limits) = line.strip_prefix(OF_STACK) {
            return limits.split_ascii_whitespace().next()?.parse().ok();
        }
    }
    None
}

/// Writes to a new page of the stack in each of some nested calls. Each call passes on the byte of the page above, so
/// the result depends on every write, and the compiler removes none.
fn touch_pages(pages: usize, above: &[u8; PAGE]) -> u8
    requires { pages < 4096 }
{
    if pages == 0 {
        return above[0];
    }
    let mut page = [0; PAGE];
    page[pages - 1] = above[pages];
    touch_pages(pages - 1, &page)
}
