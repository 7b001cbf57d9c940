//! The reports of `best` and `prove` with a limit of seconds, by a clock of the test.
ghost use Rattle.std.specs.Prelude.{◌≡◌};

use crate::Paper;
use grid::Level;
use sokopar::{
    LevelRequest, LevelsRequest, Progress, Reader, Settings, Watch, Writer, run_best,
    run_best_collection, run_prove,
};
use std::alloc::Global;
use std::process::Abort;
use std::thread::Threads;

/// A room whose solutions have at least five pushes, two more than the first bound says.
const ROOM: &[u8] = b"#######\n#. @  #\n# $*$.#\n#     #\n#######\n";

/// The length of the first line of a table.
const HEAD: usize = 99;

/// A clock that stands still, except in the searches of a level from one number to another, counted from 1: there each
/// question takes some seconds.
#[derive(Drop)]
struct Ticks {
    from: u32,
    to: u32,
    search: u32,
    run: u32,
    asked: u32,
    /// How many seconds later it is.
    step: u32,
}

impl Ticks {
    fn new(from: u32, to: u32) -> Ticks {
        Ticks {
            from,
            to,
            search: 0,
            run: 0,
            asked: 0,
            step: 1,
        }
    }
}

impl Progress for Ticks {
    ghost told = { λ it run. run ≡ it.run };

    fn note(&mut self, _level: &Level, _at_least: u32, _found: usize) {}

    fn better(&mut self, _pushes: usize, _moves: usize) {}

    fn seconds(&mut self) -> u32 {
        self.asked = self.asked.saturating_add(1);
        if self.from <= self.search && self.search <= self.to {
            self.run = self.run.saturating_add(self.step);
        }
        self.run
    }
}

impl Watch for Ticks {
    fn wants_last(&self) -> bool {
        false
    }

    fn end_at(&mut self, _number: u32) {}

    fn begin(&mut self, _number: u32) {
        self.search = 0;
    }

    fn compare(&mut self, _pushes: usize) {}

    fn restart(&mut self) {
        self.search = self.search.saturating_add(1);
        self.run = 0;
    }
}

/// Settings without a cap.
fn settings(moves: bool, seconds: Option<u32>) -> Settings {
    Settings {
        cap: None,
        limit: 100_000,
        moves,
        seconds,
    }
}

// Checks the report of `best`, or of `prove` on a solution, and whether the clock was asked.
fn reports<R: Threads + Sync + Abort>(
    rt: &R,
    alloc: Global,
    solution: Option<&[u8]>,
    settings: Settings,
    ticks: Ticks,
    report: &[u8],
    status: u8,
) {
    let mut ticks = ticks;
    let mut paper = Paper::new(alloc, usize::MAX, 0);
    let mut source = Reader::new(ROOM);
    let mut sink = Writer::new(&mut paper);
    let request = LevelRequest {
        number: 1,
        workers: 1,
        settings,
        lurd: false,
    };
    let answer = match solution {
        None => run_best(rt, alloc, &mut source, request, &mut ticks, &mut sink),
        Some(text) => run_prove(
            rt,
            alloc,
            &mut source,
            &mut Reader::new(text),
            request,
            &mut ticks,
            &mut sink,
        ),
    };
    drop(sink);
    assert_eq!(rt; answer, Ok(status));
    assert_eq!(rt; paper.text.as_slice(), report);
    assert_eq!(rt; ticks.asked > 0, settings.seconds.is_some());
}

#[test]
fn best_ends_once_its_time_is_up(rt: HostRuntime) {
    let rows: [(u32, u32, bool, &[u8], u8); 5] = [
        // no search has time
        (
            1,
            9,
            false,
            b"limit 1 seconds reached, at least 3 pushes\n",
            4,
        ),
        // the beams have
        (
            1,
            1,
            false,
            b"found 5 pushes, 18 moves, limit 1 seconds reached, at least 3 pushes\nllddrrURuLLrddlluR\n",
            4,
        ),
        // all have but the search near the solution
        (
            2,
            2,
            false,
            b"optimal 5 pushes, 21 moves\nllddrrURdllluRdrruuLL\n",
            0,
        ),
        // all have but that for the fewest moves
        (
            2,
            2,
            true,
            b"optimal 5 pushes, 18 moves, limit 1 seconds reached\nllddrrURuLLrddlluR\n",
            4,
        ),
        // all have
        (
            0,
            0,
            true,
            b"optimal 5 pushes, optimal 18 moves\nllddrrURuLLrddlluR\n",
            0,
        ),
    ];
    for (from, to, moves, report, status) in rows {
        let settings = settings(moves, Some(1));
        let ticks = Ticks::new(from, to);
        reports(&rt, rt.alloc(), None, settings, ticks, report, status);
    }
    let report = b"optimal 5 pushes, optimal 18 moves\nllddrrURuLLrddlluR\n";
    let ticks = Ticks::new(1, 9);
    reports(
        &rt,
        rt.alloc(),
        None,
        settings(true, None),
        ticks,
        report,
        0,
    );
}

#[test]
fn prove_ends_once_its_time_is_up(rt: HostRuntime) {
    let fewest: &[u8] = b"llddrrURuLLrddlluR";
    let more: &[u8] = b"llddrrURuLLrddlluRurrdLdlluR";
    let rows: [(&[u8], u32, u32, bool, &[u8], u8); 4] = [
        (
            more,
            1,
            9,
            false,
            b"limit 1 seconds reached, at least 3 pushes, given 7 pushes, 28 moves\n",
            4,
        ),
        (
            more,
            1,
            1,
            false,
            b"not optimal 7 pushes, 28 moves, found 5 pushes, 18 moves, limit 1 seconds reached, \
            at least 3 pushes\nllddrrURuLLrddlluR\n",
            1,
        ),
        (
            fewest,
            2,
            9,
            true,
            b"optimal 5 pushes, 18 moves, limit 1 seconds reached\n",
            4,
        ),
        (
            fewest,
            0,
            0,
            true,
            b"optimal 5 pushes, optimal 18 moves\n",
            0,
        ),
    ];
    for (solution, from, to, moves, report, status) in rows {
        let settings = settings(moves, Some(1));
        let ticks = Ticks::new(from, to);
        reports(
            &rt,
            rt.alloc(),
            Some(solution),
            settings,
            ticks,
            report,
            status,
        );
    }
}

#[test]
fn a_table_has_the_limit_in_seconds(rt: HostRuntime) {
    let alloc = rt.alloc();
    let mut paper = Paper::new(alloc, usize::MAX, 0);
    let request = LevelsRequest {
        from: 1,
        to: 1,
        table: true,
        proves: true,
        workers: 1,
        settings: settings(false, Some(60)),
    };
    let mut ticks = Ticks::new(1, 9);
    ticks.step = 60;
    let status = run_best_collection(
        &rt,
        alloc,
        &mut Reader::new(ROOM),
        request,
        &mut ticks,
        &mut Writer::new(&mut paper),
    );
    assert_eq!(&rt; status, Ok(4));
    let text = paper.text.as_slice();
    assert!(&rt; HEAD <= text.len());
    let (_, row) = text.split_at(HEAD);
    assert_eq!(&rt; row, b"1\t1\t3\topen\t\t\t\t\t\t3\t60 s\t\t\n".as_slice());
}
