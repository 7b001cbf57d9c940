//! The reports of the engines.
use super::{Command, Ends, WELL, run};
use crate::boards::{ONE, TWO};
use std::alloc::Global;
use std::process::Abort;
use std::sync::Wait;
use std::thread::Threads;

#[test]
fn show_and_dead_write_boards(rt: HostRuntime) {
    let rows: [(&[u8], Command<'_>, &[u8], u8); 3] = [
        (b"5#|#@$.#|5#|\n", Command::Show(1), ONE, 0),
        (
            b"   #####\n####@$.#  #\n   #####\n",
            Command::Dead(1),
            b"   #####\n####x .#  #\n   #####\n",
            0,
        ),
        (
            b"#####\n##.##\n##$##\n# $ #\n# @.#\n#####\n",
            Command::Dead(1),
            b"#####\n##.##\n## ##\n#x x#\n#x .#\n#####\n",
            0,
        ),
    ];
    for (file, command, report, status) in rows {
        run(&rt, rt.alloc(), file, command, WELL).is(&rt, report, status);
    }
}

#[test]
fn boxes_on_their_goals_are_solved_up_to_the_greatest_number(rt: HostRuntime) {
    let solved = b"solved 0 pushes, 0 moves, 1 positions\n\n";
    let rows: [(&[u8], &[u8], u8); 4] = [
        (b"35#|#@32*#|35#\n", solved, 0),
        (b"36#|#@33*#|36#\n", solved, 0),
        (b"67#|#@64*#|67#\n", solved, 0),
        (b"68#|#@65*#|68#\n", b"too many boxes\n", 1),
    ];
    for (file, report, status) in rows {
        for workers in [1, 2, 64] {
            for locks in [1, 2, 3, 16] {
                let outcome = run(
                    &rt,
                    rt.alloc(),
                    file,
                    Command::Solve(1, workers, locks),
                    WELL,
                );
                outcome.is(&rt, report, status);
            }
        }
    }
}

#[test]
fn reads_a_solution_only_for_a_lawful_level(rt: HostRuntime) {
    let cases: [(&[u8], u32, &[u8]); 2] = [(TWO, 2, b"fault 7 Open\n"), (b"", 1, b"no level 1\n")];
    for (file, number, report) in cases {
        check_unread(&rt, rt.alloc(), file, number, report);
    }
}

// Checks a level that is faulty or missing, with a solution whose first read would fail: the engine does not read it.
fn check_unread(
    rt: &(impl Abort + Threads + Wait + Sync),
    alloc: Global,
    file: &[u8],
    number: u32,
    report: &[u8],
) {
    let ends = Ends {
        solution_fails: 1,
        ..WELL
    };
    let outcome = run(rt, alloc, file, Command::Replay(number, b"R"), ends);
    outcome.is(rt, report, 1);
    assert_eq!(rt; outcome.solution_reads, 0);
}
