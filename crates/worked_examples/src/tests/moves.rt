//! The reports of `best` and `prove`, with and without the fewest moves.
use crate::Paper;
use sokopar::{
    LevelRequest, LevelsRequest, Reader, Settings, Unheard, Writer, run_best, run_best_collection,
    run_prove,
};
use std::alloc::Global;
use std::process::Abort;
use std::thread::Threads;

/// A room whose solutions with one push have at least two moves.
const ROOM: &[u8] = b"######\n#@   #\n# $. #\n######\n";

/// Settings without a cap.
fn settings(limit: u32, moves: bool) -> Settings {
    Settings {
        cap: None,
        limit,
        moves,
        seconds: None,
    }
}

#[test]
fn best_looks_for_the_fewest_moves_if_they_are_wanted(rt: HostRuntime) {
    let alloc = rt.alloc();
    let mut paper = Paper::new(alloc, usize::MAX, 0);
    let request = LevelRequest {
        number: 1,
        workers: 1,
        settings: settings(1_000, true),
        lurd: false,
    };
    let status = run_best(
        &rt,
        alloc,
        &mut Reader::new(ROOM),
        request,
        &mut Unheard,
        &mut Writer::new(&mut paper),
    );
    assert_eq!(&rt; status, Ok(0));
    assert_eq!(&rt;
        paper.text.as_slice(),
        b"optimal 1 pushes, optimal 2 moves\ndR\n".as_slice()
    );
}

#[test]
fn levels_of_a_collection_have_the_fewest_moves_if_they_are_wanted(rt: HostRuntime) {
    let alloc = rt.alloc();
    let mut paper = Paper::new(alloc, usize::MAX, 0);
    let request = LevelsRequest {
        from: 1,
        to: 1,
        table: false,
        proves: true,
        workers: 1,
        settings: settings(1_000, true),
    };
    let status = run_best_collection(
        &rt,
        alloc,
        &mut Reader::new(ROOM),
        request,
        &mut Unheard,
        &mut Writer::new(&mut paper),
    );
    assert_eq!(&rt; status, Ok(0));
    assert_eq!(&rt;
        paper.text.as_slice(),
        b"1 optimal 1 pushes, optimal 2 moves  dR\n1 levels, 1 optimal, 0 unsolvable, 0 open, 0 not judged\n".as_slice()
    );
}

// Checks the report of `prove` of a solution of the room.
fn proves<R: Threads + Sync + Abort>(
    rt: &R,
    alloc: Global,
    solution: &[u8],
    settings: Settings,
    report: &[u8],
    status: u8,
) {
    let mut paper = Paper::new(alloc, usize::MAX, 0);
    let request = LevelRequest {
        number: 1,
        workers: 1,
        settings,
        lurd: false,
    };
    let answer = run_prove(
        rt,
        alloc,
        &mut Reader::new(ROOM),
        &mut Reader::new(solution),
        request,
        &mut Unheard,
        &mut Writer::new(&mut paper),
    );
    assert_eq!(rt; answer, Ok(status));
    assert_eq!(rt; paper.text.as_slice(), report);
}

#[test]
fn prove_says_which_moves_are_the_fewest(rt: HostRuntime) {
    let rows: [(&[u8], u32, bool, &[u8], u8); 6] = [
        (b"rldR", 1_000, false, b"optimal 1 pushes, 4 moves\n", 0),
        (
            b"dR",
            1_000,
            true,
            b"optimal 1 pushes, optimal 2 moves\n",
            0,
        ),
        (
            b"rldR",
            1_000,
            true,
            b"not optimal 1 pushes, 4 moves, optimal 1 pushes, optimal 2 moves\ndR\n",
            1,
        ),
        (
            b"dR",
            1,
            true,
            b"optimal 1 pushes, 2 moves, limit 1 reached\n",
            4,
        ),
        (
            b"dRurrdLulldR",
            1_000,
            true,
            b"not optimal 3 pushes, 12 moves, optimal 1 pushes, optimal 2 moves\ndR\n",
            1,
        ),
        (
            b"dRurrdLulldR",
            1_000,
            false,
            b"not optimal 3 pushes, 12 moves, optimal 1 pushes, 2 moves\ndR\n",
            1,
        ),
    ];
    for (solution, limit, moves, report, status) in rows {
        proves(
            &rt,
            rt.alloc(),
            solution,
            settings(limit, moves),
            report,
            status,
        );
    }
}
