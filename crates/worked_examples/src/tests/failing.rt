//! Ends that fail at each read and each write in turn.
use super::{Command, Ends, WELL, run};
use crate::boards::{ONE, TWO};
use sokopar::RunFault;
use std::alloc::Global;
use std::process::Abort;
use std::sync::Wait;
use std::thread::Threads;

/// Ends that move one byte at a time.
const DRIPPING: Ends = Ends {
    read_most: 1,
    write_most: 1,
    ..WELL
};

/// A command with a solution text.
const REPLAY: Command<'static> = Command::Replay(1, b"RlR");

/// A command of each engine, with its report on the two boards.
const COMMANDS: [(Command<'static>, &[u8], u8); 5] = [
    (
        Command::Check,
        b"1 line 2 ok 3x5 1 boxes one\n2 line 6 fault 7 Open two\n2 levels, 1 good\n",
        1,
    ),
    (Command::Show(1), ONE, 0),
    (Command::Dead(1), b"#####\n#x .#\n#####\n", 0),
    (
        Command::Solve(1, 2, 2),
        b"solved 1 pushes, 1 moves, 2 positions\nR\n",
        0,
    ),
    (REPLAY, b"wrong case at 3\n", 1),
];

#[test]
fn moves_a_byte_at_a_time(rt: HostRuntime) {
    for (command, report, status) in COMMANDS {
        let outcome = run(&rt, rt.alloc(), TWO, command, DRIPPING);
        outcome.is(&rt, report, status);
        assert_eq!(&rt; (outcome.reads, outcome.writes), (51, report.len()));
    }
}

#[test]
fn fails_at_each_read(rt: HostRuntime) {
    for (command, _, _) in COMMANDS {
        for at in 1..=51 {
            let ends = Ends {
                read_fails: at,
                ..DRIPPING
            };
            check_fault(&rt, rt.alloc(), command, ends, (at, 0));
        }
    }
}

#[test]
fn fails_at_each_read_of_a_solution(rt: HostRuntime) {
    for at in 1..=4 {
        let ends = Ends {
            solution_fails: at,
            ..DRIPPING
        };
        check_fault(&rt, rt.alloc(), REPLAY, ends, (51, at));
    }
}

// Checks a command whose read fails after these numbers of reads of the collection and of the solution: it reads no
// more.
fn check_fault(
    rt: &(impl Abort + Threads + Wait + Sync),
    alloc: Global,
    command: Command<'_>,
    ends: Ends,
    reads: (usize, usize),
) {
    let outcome = run(rt, alloc, TWO, command, ends);
    outcome.is_fault(rt, RunFault::Read);
    assert_eq!(rt; (outcome.reads, outcome.solution_reads), reads);
}

#[test]
fn fails_at_each_write(rt: HostRuntime) {
    for (command, report, _) in COMMANDS {
        for written in 0..report.len() {
            check_write(&rt, rt.alloc(), command, written, &report[..written]);
        }
    }
}

// Checks a command whose write fails after `written` bytes: it has written these, a beginning of its report.
fn check_write(
    rt: &(impl Abort + Threads + Wait + Sync),
    alloc: Global,
    command: Command<'_>,
    written: usize,
    beginning: &[u8],
) {
    let ends = Ends {
        write_fails: written.saturating_add(1),
        ..DRIPPING
    };
    let outcome = run(rt, alloc, TWO, command, ends);
    assert_eq!(rt; outcome.answer, Err(RunFault::Write));
    assert_eq!(rt; outcome.text.as_slice(), beginning);
}

#[test]
fn takes_no_byte(rt: HostRuntime) {
    let ends = Ends {
        write_most: 0,
        ..WELL
    };
    for (command, _, _) in COMMANDS {
        run(&rt, rt.alloc(), TWO, command, ends).is_fault(&rt, RunFault::Write);
    }
}
