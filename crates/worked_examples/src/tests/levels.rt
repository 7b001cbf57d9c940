//! The reports on the levels of a collection: a table, and the solutions of a folder.
ghost use Rattle.std.specs.Prelude.{⊤, codes};

use crate::{Paper, Pieces};
use sokopar::{
    Folder, LevelsRequest, Reader, RunFault, Settings, Unheard, Writer, run_best_collection,
    run_prove_collection,
};
use std::alloc::Global;
use std::process::Abort;
use std::thread::Threads;

/// Four levels, and a board without a player.
const LEVELS: &[u8] =
    b"; a\tname\n#####\n#@$.#\n#####\n\n########\n#. $@$.#\n#      #\n########\n\n######\n#.$$.#\n#  @ #\n######\n\n####\n#@*#\n####\n\n####\n# $.\n####\n";

#[test]
fn a_table_has_a_row_for_each_level(rt: HostRuntime) {
    let alloc = rt.alloc();
    let mut paper = Paper::new(alloc, usize::MAX, 0);
    let settings = Settings {
        cap: None,
        limit: 1_000,
        moves: true,
        seconds: None,
    };
    let request = LevelsRequest {
        from: 1,
        to: 5,
        table: true,
        proves: true,
        workers: 1,
        settings,
    };
    let status = run_best_collection(
        &rt,
        alloc,
        &mut Reader::new(LEVELS),
        request,
        &mut Unheard,
        &mut Writer::new(&mut paper),
    );
    assert_eq!(&rt; status, Ok(1));
    assert_eq!(&rt;
        paper.text.as_slice(),
        b"level\tline\tboxes\tverdict\tproved\tgiven_pushes\tgiven_moves\tpushes\tmoves\tat_least\tlimit\tname\tsolution\n\
        1\t2\t1\toptimal\tpushes and moves\t\t\t1\t1\t\t\ta name\tR\n\
        2\t6\t2\toptimal\tpushes and moves\t\t\t3\t4\t\t\t\tRlLL\n\
        3\t11\t2\tunsolvable\t\t\t\t\t\t\t\t\t\n\
        4\t16\t1\toptimal\tpushes and moves\t\t\t0\t0\t\t\t\t\n\
        5\t20\t\tfault\t\t\t\t\t\t\t\t\t\n"
            .as_slice()
    );
    assert_eq!(&rt; paper.writes, 6);
}

/// The solutions of the levels with these numbers.
#[derive(Drop)]
struct Shelf<'a> {
    solutions: &'a [(u32, &'a [u8])],
    unread: u32,
}

impl<'a> Folder for Shelf<'a> {
    type File = Reader<Pieces<'a>>;

    ghost opened = { λ _ _ _. ⊤ };

    ghost path_seen = { λ _. codes "shelf" };

    fn path(&self) -> &[u8] {
        b"shelf"
    }

    fn open(&self, number: u32) -> Result<Option<Reader<Pieces<'a>>>, RunFault> {
        for (level, text) in self.solutions {
            if *level == number {
                let fails_at = if number == self.unread { 1 } else { 0 };
                return Ok(Some(Reader::new(Pieces::new(text, 3, fails_at))));
            }
        }
        Ok(None)
    }
}

// Checks the report on a folder in which reading the solution of a level fails, in words or as a table.
fn proves_all<R: Threads + Sync + Abort>(
    rt: &R,
    alloc: Global,
    unread: u32,
    table: bool,
    report: &[u8],
    status: u8,
) {
    let mut paper = Paper::new(alloc, usize::MAX, 0);
    let solutions: [(u32, &[u8]); 4] = [
        (1, b"R".as_slice()),
        (2, b"LdlluRdrruRlLL".as_slice()),
        (3, b"x".as_slice()),
        (5, b"R".as_slice()),
    ];
    let shelf = Shelf {
        solutions: &solutions,
        unread,
    };
    let settings = Settings {
        cap: None,
        limit: 1_000,
        moves: false,
        seconds: None,
    };
    let request = LevelsRequest {
        from: 1,
        to: 5,
        table,
        proves: true,
        workers: 1,
        settings,
    };
    let answer = run_prove_collection(
        rt,
        alloc,
        &mut Reader::new(LEVELS),
        &shelf,
        request,
        &mut Unheard,
        &mut Writer::new(&mut paper),
    );
    assert_eq!(rt; answer, Ok(status));
    assert_eq!(rt; paper.text.as_slice(), report);
}

#[test]
fn the_solutions_of_a_folder_are_proved_one_by_one(rt: HostRuntime) {
    let report = b"1 optimal 1 pushes, 1 moves\n\
        2 not optimal 5 pushes, 14 moves, optimal 3 pushes, 4 moves  RlLL\n\
        3 bad byte at 1\n\
        5 fault 3 NoPlayer\n\
        5 levels, 1 optimal, 1 beaten, 0 open, 2 not judged, 1 without a solution\n";
    proves_all(&rt, rt.alloc(), 0, false, report.as_slice(), 1);
}

#[test]
fn a_solution_that_cannot_be_read_has_a_line(rt: HostRuntime) {
    let report = b"1 optimal 1 pushes, 1 moves\n\
        2 cannot read\n\
        3 bad byte at 1\n\
        5 fault 3 NoPlayer\n\
        5 levels, 1 optimal, 0 beaten, 0 open, 3 not judged, 1 without a solution\n";
    proves_all(&rt, rt.alloc(), 2, false, report.as_slice(), 3);
}

#[test]
fn a_table_has_a_row_for_each_solution(rt: HostRuntime) {
    let report =
        b"level\tline\tboxes\tverdict\tproved\tgiven_pushes\tgiven_moves\tpushes\tmoves\tat_least\tlimit\tname\tsolution\n\
        1\t2\t1\toptimal\tpushes\t1\t1\t1\t1\t\t\ta name\t\n\
        2\t6\t2\tbeaten\tpushes\t5\t14\t3\t4\t\t\t\tRlLL\n\
        3\t11\t2\tbad_text\t\t\t\t\t\t\t\t\t\n\
        5\t20\t\tfault\t\t\t\t\t\t\t\t\t\n";
    proves_all(&rt, rt.alloc(), 0, true, report.as_slice(), 1);
}
