//! Collections: boards, their faults and names, and the text of a level.
use grid::{Level, LevelFault, MAX_ROWS, Square};
use std::alloc::Global;
use std::process::Abort;
use std::test::Fail;
use xsb::{Entry, read, write};

mod largest;
mod one_by_one;

// The rows, columns and boxes of a level, or its fault.
type Shape = Result<(usize, usize, usize), LevelFault>;

fn shape(entry: &Entry) -> Shape {
    shape_of(&entry.board)
}

fn shape_of(board: &Result<Level, LevelFault>) -> Shape {
    match board {
        Ok(level) => Ok((level.rows(), level.cols(), level.boxes())),
        Err(fault) => Err(*fault),
    }
}

// The entry of a collection of one board.
fn only(alloc: Global, text: &[u8]) -> Result<Entry, Fail> {
    let mut entries = read(alloc, text)?;
    let entry = entries.pop().ok_or("no board")?;
    if !entries.is_empty() {
        return Err(Fail::from("more than one board"));
    }
    Ok(entry)
}

#[test]
fn boards_are_levels_or_have_a_first_fault(rt: HostRuntime) -> Result<(), Fail> {
    let counts = LevelFault::Counts { boxes: 2, goals: 1 };
    let rows: [(&[u8], Shape); 13] = [
        (b"5#|#@$.#|5#", Ok((3, 5, 1))),
        (b"5#|#@$.#|5#|", Ok((3, 5, 1))),
        (b"||05#\n#@$.#||0005#", Ok((3, 5, 1))),
        (b"68#|#@65*#|68#", Ok((3, 68, 65))),
        (b"||3#|", Err(LevelFault::NoPlayer)),
        (b"####\n# .#\n####", Err(LevelFault::NoPlayer)),
        (b"#####\n# $.#\n#####", Err(LevelFault::NoPlayer)),
        (b"######\n#@@$.#\n######", Err(LevelFault::TwoPlayers)),
        (b"####\n#@.#\n####", Err(LevelFault::NoBox)),
        (b"######\n#@$$.#\n######", Err(counts)),
        (b"####\n#@$.\n####", Err(LevelFault::Open)),
        (b"#####\n#@$.#\n###", Err(LevelFault::Open)),
        (b"5#|#@$.#\n00005#", Err(LevelFault::Open)),
    ];
    for (row, (text, want)) in rows.into_iter().enumerate() {
        assert_eq!(&rt; shape(&only(rt.alloc(), text)?), want, "row {row}");
    }
    Ok(())
}

#[test]
fn lines_that_are_no_rows_end_boards(rt: HostRuntime) -> Result<(), Fail> {
    let rows: [(&[u8], usize); 4] = [
        (b"", 0),
        (b"#1\n0#\n12#3\n", 0),
        (b"00005#\n#2|#\n--  __\n#x\n", 0),
        (b"#####\n#@$.=\n#####", 2),
    ];
    for (row, (text, boards)) in rows.into_iter().enumerate() {
        assert_eq!(&rt; read(rt.alloc(), text)?.len(), boards, "row {row}");
    }
    Ok(())
}

#[test]
fn boards_have_as_many_rows_as_a_level_at_most(rt: HostRuntime) -> Result<(), Fail> {
    for (rows, fault) in [
        (64, LevelFault::NoPlayer),
        (MAX_ROWS, LevelFault::NoPlayer),
        (MAX_ROWS + 1, LevelFault::TooTall),
    ] {
        let mut text = Vec::new(rt.alloc());
        for _ in 0..rows {
            text.extend_from_slice(b"#\n")?;
        }
        assert_eq!(&rt; shape(&only(rt.alloc(), &text)?), Err(fault), "{rows} rows");
    }
    Ok(())
}

#[test]
fn names_stand_before_a_board_or_after_it(rt: HostRuntime) -> Result<(), Fail> {
    let rows: [(&[u8], &[u8]); 4] = [
        (b"\xEF\xBB\xBF;  a \r\n4#|#@*#|4#\r\n", b"a"),
        (b";\n4#|#@*#|4#\nTitle: x\n", b""),
        (b";one\n; two\t\nother\n4#|#@*#|4#\nTitle: x\n", b"two"),
        (b"4#|#@*#|4#\nTitle: x\r\r\nTitle: y", b"x\r"),
    ];
    for (row, (text, name)) in rows.into_iter().enumerate() {
        let entry = only(rt.alloc(), text)?;
        assert_eq!(&rt; entry.name.as_slice(), name, "row {row}");
    }
    Ok(())
}

#[test]
fn a_gap_names_both_neighbours(rt: HostRuntime) -> Result<(), Fail> {
    let entries = read(rt.alloc(), b"4#|#@*#|4#\nTitle: before\n;after\n4#|#@*#|4#")?;
    assert_eq!(rt; entries.len(), 2);
    assert_eq!(rt; entries[0].name.as_slice(), b"before".as_slice());
    assert_eq!(rt; entries[1].name.as_slice(), b"after".as_slice());
    assert_eq!(rt; (entries[0].first_line, entries[1].first_line), (1, 4));
    Ok(())
}

// The level of a collection of one board.
fn level_of(rt: &impl Abort, alloc: Global, text: &[u8]) -> Level {
    let mut entries = read(alloc, text).expect(rt, "a collection");
    let entry = entries.pop().expect(rt, "a board");
    entry.board.expect(rt, "a level")
}

#[test]
fn each_cell_is_read_and_written(rt: HostRuntime) {
    let level = level_of(&rt, rt.alloc(), b"##########\n#+ $$.-_*#\n##########");
    check_cells(&rt, &level);
    let mut out = Vec::new(rt.alloc());
    out.push(b'>').expect(&rt, "memory");
    write(&level, &mut out).expect(&rt, "memory");
    assert_eq!(rt;
        out.as_slice(),
        b">##########\n#+ $$.  *#\n##########\n".as_slice()
    );
}

// Checks which cells of the row `#+ $$.-_*#`, after a row of ten walls, are walls, boxes and goals.
fn check_cells(rt: &impl Abort, level: &Level) {
    assert_eq!(rt; level.player(), Square(11));
    let cells = [
        (10, [true, false, false]),
        (11, [false, false, true]),
        (12, [false, false, false]),
        (13, [false, true, false]),
        (15, [false, false, true]),
        (16, [false, false, false]),
        (17, [false, false, false]),
        (18, [false, true, true]),
    ];
    for (place, want) in cells {
        let square = Square(place);
        let found = [
            level.is_wall(square),
            level.has_box(square),
            level.is_goal(square),
        ];
        assert_eq!(rt; found, want, "square {place}");
    }
}
