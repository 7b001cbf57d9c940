//! Solutions: their texts, and the verdicts of replays.
use crate::boards::{BoardText, level_of};
use lurd::{LurdFault, MAX_MOVES, Verdict, parse, replay, write};
use std::alloc::Global;
use std::process::Abort;
use std::test::Fail;

// A player, a box and a goal in a row between walls.
const CORRIDOR: BoardText = (5, b"######@$.######");

// `CORRIDOR` with a free square between player and box.
const LONG_CORRIDOR: BoardText = (6, b"#######@ $.#######");

// The verdict on a text, replayed in the corridor.
fn judged(rt: &impl Abort, alloc: Global, text: &[u8]) -> Result<Verdict, Fail> {
    let moves = parse(alloc, text)?;
    Ok(replay(alloc, &level_of(rt, alloc, CORRIDOR), &moves)?)
}

// A text that repeats an item.
fn repeated(alloc: Global, item: &[u8], times: usize) -> Result<Vec<u8>, Fail> {
    let mut text = Vec::new(alloc);
    for _ in 0..times {
        text.extend_from_slice(item)?;
    }
    Ok(text)
}

#[test]
fn more_than_a_million_moves(rt: HostRuntime) -> Result<(), Fail> {
    let text = repeated(rt.alloc(), b"9999r", 101)?;
    let fault = parse(rt.alloc(), &text).err();
    assert_eq!(&rt; fault, Some(LurdFault::TooManyMoves));
    Ok(())
}

#[test]
fn a_million_moves(rt: HostRuntime) -> Result<(), Fail> {
    let mut text = repeated(rt.alloc(), b"9999r", 100)?;
    text.extend_from_slice(b"100r")?;
    let verdict = judged(&rt, rt.alloc(), &text)?;
    assert_eq!(&rt; verdict, Verdict::WrongCase { at: 1 });
    Ok(())
}

#[test]
fn a_million_steps(rt: HostRuntime) -> Result<(), Fail> {
    let text = repeated(rt.alloc(), b"rl", MAX_MOVES / 2)?;
    let moves = parse(rt.alloc(), &text)?;
    let level = level_of(&rt, rt.alloc(), LONG_CORRIDOR);
    let unsolved = Verdict::Unsolved {
        pushes: 0,
        moves: MAX_MOVES,
    };
    assert_eq!(&rt; replay(rt.alloc(), &level, &moves), Ok(unsolved));
    let mut out = Vec::new(rt.alloc());
    write(&moves, &mut out)?;
    assert!(&rt; out.as_slice() == text.as_slice());
    Ok(())
}

#[test]
fn letters_are_written(rt: HostRuntime) -> Result<(), Fail> {
    let moves = parse(rt.alloc(), b"2u\r\nL d\t0003R")?;
    let mut out = Vec::new(rt.alloc());
    write(&moves, &mut out)?;
    assert_eq!(rt; out.as_slice(), b"uuLdRRR".as_slice());
    Ok(())
}
