//! The examples at the head of `lib.rt` of `crew` and `sokopar`. `tests/cited` compares them with the text here.
use crate::boards::CORNER;
use crate::books::level_of;
use crew::{Config, Free};
use sokopar::{Reader, Writer, run_check};
use solo::Answer;

#[test]
fn page_of_crew(rt: HostRuntime) {
    let alloc = rt.alloc();
    let level = level_of(&rt, alloc, CORNER);
    let config = Config {
        workers: 2,
        locks: 2,
        limit: 1_000,
        cap: None,
    };
    let answer = crew::solve(&rt, alloc, &level, config, &Free).expect(&rt, "memory");
    assert!(&rt; matches!(&answer, Answer::Solved { pushes: 2, .. }));
}

#[test]
fn page_of_sokopar(rt: HostRuntime) {
    let alloc = rt.alloc();
    let mut file: &[u8] = b"#####\n#@$.#\n#####\n";
    let mut text = Vec::new(alloc);
    let status = run_check(
        alloc,
        &mut Reader::new(&mut file),
        &mut Writer::new(&mut text),
    );
    assert_eq!(&rt; status.ok(), Some(0));
    assert_eq!(&rt;
        text.as_slice(),
        b"1 line 1 ok 3x5 1 boxes\n1 levels, 1 good\n".as_slice()
    );
}
