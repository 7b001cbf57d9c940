//! The texts of all public error types.
use grid::LevelFault;
use layers::{BeginFault, BookFault, CloseFault, JoinFault, Refusal};
use lurd::LurdFault;
use prover::SearchFault;
use sokopar::{Failed, RunFault};
use solo::SolveFault;
use std::alloc::Global;
use std::fmt::Display;
use std::process::Abort;
use xsb::ReadFault;

// Checks the text of an error.
fn shows<R: Abort, E: Display + Drop>(rt: &R, alloc: Global, error: E, text: &str) {
    let shown = error.to_string(alloc).expect(rt, "memory");
    assert_eq!(rt; shown.as_str(), text);
}

#[test]
fn texts_of_levels_and_files(rt: HostRuntime) {
    let alloc = rt.alloc();
    let counts = LevelFault::Counts {
        boxes: 2,
        goals: 31,
    };
    shows(&rt, alloc, LevelFault::TooTall, "more than 255 rows");
    shows(&rt, alloc, LevelFault::TooWide, "more than 255 columns");
    shows(&rt, alloc, LevelFault::NoPlayer, "no player");
    shows(&rt, alloc, LevelFault::TwoPlayers, "more than one player");
    shows(&rt, alloc, LevelFault::NoBox, "no box");
    shows(&rt, alloc, counts, "2 boxes and 31 goals");
    shows(
        &rt,
        alloc,
        LevelFault::Open,
        "the player can reach the edge",
    );
    shows(&rt, alloc, LevelFault::OutOfMemory, "out of memory");
    shows(&rt, alloc, ReadFault::TooLong, "more than 16777216 bytes");
    shows(&rt, alloc, ReadFault::OutOfMemory, "out of memory");
}

#[test]
fn texts_of_solutions_and_runs(rt: HostRuntime) {
    let alloc = rt.alloc();
    let byte = LurdFault::BadByte { at: 7 };
    let count = LurdFault::BadCount { at: 12 };
    shows(
        &rt,
        alloc,
        byte,
        "byte 7 begins neither a letter nor a count",
    );
    shows(
        &rt,
        alloc,
        count,
        "the digits at byte 12 are no count of a letter",
    );
    shows(
        &rt,
        alloc,
        LurdFault::TooManyMoves,
        "more than 1000000 moves",
    );
    shows(&rt, alloc, LurdFault::OutOfMemory, "out of memory");
    shows(&rt, alloc, RunFault::Read, "cannot read");
    shows(&rt, alloc, RunFault::Write, "cannot write");
    shows(&rt, alloc, RunFault::TooLong, "file too long");
    shows(&rt, alloc, RunFault::OutOfMemory, "out of memory");
    shows(&rt, alloc, Failed, "a read or a write failed");
}

#[test]
fn texts_of_searches(rt: HostRuntime) {
    let alloc = rt.alloc();
    let outside = "a number of the configuration is outside its limits";
    shows(&rt, alloc, SolveFault::TooManyBoxes, "more than 64 boxes");
    shows(&rt, alloc, SolveFault::BadConfig, outside);
    shows(&rt, alloc, SolveFault::OutOfMemory, "out of memory");
    shows(&rt, alloc, SearchFault::TooManyBoxes, "more than 64 boxes");
    shows(
        &rt,
        alloc,
        SearchFault::OutOfMemory { at_least: 0 },
        "out of memory",
    );
    shows(&rt, alloc, BookFault::TooManyBoxes, "more than 64 boxes");
    shows(&rt, alloc, BookFault::OutOfMemory, "out of memory");
    shows(
        &rt,
        alloc,
        JoinFault::NotWhole,
        "the books are not all the shares in order",
    );
    shows(&rt, alloc, JoinFault::OutOfMemory, "out of memory");
}

#[test]
fn texts_of_layers(rt: HostRuntime) {
    let alloc = rt.alloc();
    let begun = "the layer is not the last closed one, or has begun";
    let closed = "the parcel is not of the last closed layer";
    shows(
        &rt,
        alloc,
        BeginFault::OtherLevel,
        "the layer is of another level or cap",
    );
    shows(&rt, alloc, BeginFault::OtherLayer, begun);
    shows(&rt, alloc, BeginFault::OutOfMemory, "out of memory");
    shows(&rt, alloc, CloseFault::NotAll, "a rank is not done");
    shows(&rt, alloc, CloseFault::OutOfMemory, "out of memory");
    shows(
        &rt,
        alloc,
        Refusal::OtherLevel,
        "the parcel is of another level or cap",
    );
    shows(&rt, alloc, Refusal::OtherLayer, closed);
    shows(&rt, alloc, Refusal::NoSuchRank, "no such rank");
    shows(
        &rt,
        alloc,
        Refusal::Double,
        "the rank was handed back before",
    );
    shows(&rt, alloc, Refusal::Over, "more positions than the limit");
    shows(&rt, alloc, Refusal::OutOfMemory, "out of memory");
}
