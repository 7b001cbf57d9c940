//! Calls a function for each element of a slice. The slice is divided into parts: the last part runs in the caller's
//! thread, each other one in a new thread. The caller starts all threads: a thread that a new thread starts mostly runs
//! on the same processor, and the two take turns there.
//!
//! ```text
//! let mut numbers = [0u64; 4];
//! spreading::for_each_spread(
//!     &rt,
//!     &mut numbers,
//!     2,
//!     &|nth, number: &mut u64| { *number = nth as u64 },
//! );
//! assert_eq!(&rt; numbers, [0, 1, 2, 3]);
//! ```
#![tactic(auto)]

ghost use Rattle.std.specs.Prelude.{◌≡◌, ◌+◌, ◌^◌, ◌<◌, length};
ghost use Rattle.std.specs.Fork.{AcceptsAt, ChangesAt, AcceptsEach, ChangesEach};
ghost use Rattle.spreading.specs.Places.{HoldsFrom, ChangesFrom};
ghost use denote.Param.Send.{IsSync, IsSend};

use std::thread::{Threads, join_mut};

/// Calls `f(i, &mut s[i])` for each index, in at most `threads` threads (0 counts as 1). Each thread does a part of the
/// slice, one element after the other: the last part runs in the caller's thread, each other one in a new thread, or in
/// the caller's if none can be started. Returns when all calls have returned. The contract of `f` says what each call
/// needs and gives.
pub fn for_each_spread<R: Threads + Sync, T: Send, F: Fn(usize, &mut T) + Sync>(
    rt: &R,
    s: &mut [T],
    threads: usize,
    f: &F,
)
    requires { AcceptsEach F.Fn f.now s.old }
    ensures { ChangesEach F.Fn f.now s.old s.new }
{
    spread_from(rt, f, threads, 0, s);
}

// Calls f for each element of a slice that begins at index `base` of the whole one. The slice is the last parameter,
// since the borrow checker does not cover what a closure reads after it lends a captured `&mut`.
#[cycle(rest)]
fn spread_from<R: Threads + Sync, T: Send, F: Fn(usize, &mut T) + Sync>(
    rt: &R,
    f: &F,
    threads: usize,
    base: usize,
    s: &mut [T],
)
    requires room { base + length s.old < 2 ^ 64 }
    requires accepts { HoldsFrom (AcceptsAt F.Fn f.now) base s.old }
    ensures { ChangesFrom (ChangesAt F.Fn f.now) base s.old s.new }
{
    if threads <= 1 || s.len() <= 1 {
        each_from(f, base, s);
        return;
    }
    let count = (s.len() / threads).max(1);
    let (part, more) = s.split_at_mut(count);
    part_and_rest(rt, f, base, part, threads - 1, base + count, more);
}

// Calls f for each element of a part in a new thread, and meanwhile for those after it.
#[cycle(rest)]
fn part_and_rest<R: Threads + Sync, T: Send, F: Fn(usize, &mut T) + Sync>(
    rt: &R,
    f: &F,
    place: usize,
    part: &mut [T],
    threads: usize,
    base: usize,
    more: &mut [T],
)
    requires first { place + length part.old < 2 ^ 64 }
    requires accepts_part { HoldsFrom (AcceptsAt F.Fn f.now) place part.old }
    requires room { base + length more.old < 2 ^ 64 }
    requires accepts { HoldsFrom (AcceptsAt F.Fn f.now) base more.old }
    ensures part { ChangesFrom (ChangesAt F.Fn f.now) place part.old part.new }
    ensures more { ChangesFrom (ChangesAt F.Fn f.now) base more.old more.new }
{
    let mut front = ||
        requires threads { IsSync F.row × IsSend T.row }
        requires first { place + length part.now < 2 ^ 64 }
        requires accepts { HoldsFrom (AcceptsAt F.Fn f.now) place part.now }
        ensures { ChangesFrom (ChangesAt F.Fn f.entry.now) place part.entry.now part.exit.now }
    { each_from(f, place, part) };
    let mut back = ||
        requires threads { IsSync R.row × IsSync F.row × IsSend T.row }
        requires room { base + length more.now < 2 ^ 64 }
        requires accepts { HoldsFrom (AcceptsAt F.Fn f.now) base more.now }
        ensures { ChangesFrom (ChangesAt F.Fn f.entry.now) base more.entry.now more.exit.now }
    { spread_from(rt, f, threads, base, more) };
    join_mut(rt, &mut front, &mut back);
}

// Calls f for one element after the other.
fn each_from<T, F: Fn(usize, &mut T)>(f: &F, base: usize, s: &mut [T])
    requires room { base + length s.old < 2 ^ 64 }
    requires accepts { HoldsFrom (AcceptsAt F.Fn f.now) base s.old }
    ensures { ChangesFrom (ChangesAt F.Fn f.now) base s.old s.new }
{
    if s.is_empty() {
        return;
    }
    let (one, more) = s.split_at_mut(1);
    at_only(f, base, one);
    each_from(f, base + 1, more);
}

// Calls f for the one element.
fn at_only<T, F: Fn(usize, &mut T)>(f: &F, place: usize, one: &mut [T])
    requires one { length one.old ≡ 1 }
    requires accepts { HoldsFrom (AcceptsAt F.Fn f.now) place one.old }
    ensures { ChangesFrom (ChangesAt F.Fn f.now) place one.old one.new }
{
    f(place, &mut one[0]);
}
