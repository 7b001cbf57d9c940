//! Bounds by tables of regions.
//!
//! Each of these rooms is small enough for one table of the whole room, so the bound of its start is exactly the fewest
//! pushes. These numbers come from a slow search by the rules, over all positions of the room.
ghost use Rattle.std.specs.Prelude.{◌≡◌};

use crate::boards::{BoardText, cells_of, level_of, walled};
use crate::bounds::{LOST, all_positions, least_pushes};
use grid::{Level, MAX_BOXES, Position};
use prices::{Matching, NEVER};
use regions::Regions;
use regions::laws::{excess_is_bound, parts_add_up};
use std::alloc::Global;
use std::process::Abort;

// the bytes that a table may take
const BYTES: usize = 1 << 20;

// two boxes side by side, with their goals beyond
const BLOCKED: BoardText = (7, b"########     ##     ##@$$..##     ##     ########");

// the same in a corridor
const CORRIDOR: BoardText = (7, b"########@$$..########");

// each box has a goal below it
const FREE: BoardText = (6, b"#######    ##@$$ ## .. #######");

// the player is between the boxes, and each has a goal beyond it
const BETWEEN: BoardText = (9, b"##########. $@$ .##########");

// three boxes need 10 pushes, and any two of them show 4
const THREE: BoardText = (6, b"#######    ##  $ ##**@###.  ########");

// three boxes need 3 pushes, and any two of them show 1
const THREE_AT_WALLS: BoardText = (6, b"#######@*  ##* $ ### . #######");

// four boxes need 15 pushes, and any three of them show 7
const FOUR: BoardText = (6, b"########@  ## $  ##  $ ##** ###..  #######");

// four boxes need 3 pushes, and any three of them show 1
const FOUR_AT_WALLS: BoardText = (6, b"#######@*  ##*.$ ##*   #######");

// five boxes need 7 pushes, and any four of them show 1
const FIVE: BoardText = (8, b"#########@*    ## * $  ## **.###########");

// five boxes need 9 pushes, and any four of them show 3
const FIVE_AT_WALLS: BoardText = (8, b"#########+$    ##. $ * ##**    #########");

// no solution: no box is frozen, and any two of the three boxes can be brought to goals
const THREE_ARE_LOST: BoardText = (8, b"#########@$ * .## $.  ##########");

// the same with any three of four boxes
const FOUR_ARE_LOST: BoardText = (5, b"######.$@## $$##.*.###  ###  ######");

// the same with any four of five boxes
const FIVE_ARE_LOST: BoardText = (5, b"######@$.##$$*##.*.## ########");

// one box, which the player has to walk round, and squares from which a box comes to no goal
const WAY_ROUND: BoardText = (6, b"#######    ##.@$ ##    #######");

// the player cannot come to the other side of the box
const WRONG_SIDE: BoardText = (6, b"#######.@$ #######");

// all boxes are on goals
const SOLVED: BoardText = (7, b"######## * @ ## ### ##  *  ########");

// a box on its goal where the player never comes, and one that needs a push
const SHUT_AWAY: BoardText = (8, b"#########@$.# *#########");

fn prices_of(rt: &impl Abort, alloc: Global, level: &Level) -> Regions
    ensures { result ≡ level.now }
{
    assert!(rt; level.boxes() <= MAX_BOXES);
    Regions::of_prices(alloc, level).expect(rt, "memory")
}

fn regions_of(rt: &impl Abort, alloc: Global, level: &Level) -> Regions
    ensures { result ≡ level.now }
{
    let mut regions = prices_of(rt, alloc, level);
    let mut plan = regions.plan(alloc, level, BYTES).expect(rt, "memory");
    for job in plan.jobs() {
        job.run(alloc).expect(rt, "memory");
    }
    regions.take(alloc, level, plan).expect(rt, "memory");
    regions
}

// The lower bound of the start of a level; `None` if the start is lost.
fn lower_of(rt: &impl Abort, alloc: Global, board: BoardText) -> Option<u64> {
    let level = level_of(rt, alloc, board);
    let regions = regions_of(rt, alloc, &level);
    let start = Position::start(&level).expect(rt, "few boxes");
    assert!(rt; start.fits(&level));
    regions.lower(&start, &mut Matching::new())
}

#[test]
fn starts_need_pushes(rt: HostRuntime) {
    let alloc = rt.alloc();
    assert!(&rt; lower_of(&rt, alloc, FREE) == Some(2));
    assert!(&rt; lower_of(&rt, alloc, BETWEEN) == Some(4));
    assert!(&rt; lower_of(&rt, alloc, BLOCKED) == Some(6));
}

#[test]
fn prices_know_no_regions(rt: HostRuntime) {
    let level = level_of(&rt, rt.alloc(), CORRIDOR);
    let regions = prices_of(&rt, rt.alloc(), &level);
    let start = Position::start(&level).expect(&rt, "few boxes");
    assert!(&rt; start.fits(&level));
    assert!(&rt; regions.lower(&start, &mut Matching::new()) == Some(4));
}

#[test]
fn three_boxes_need_more(rt: HostRuntime) {
    let alloc = rt.alloc();
    assert!(&rt; lower_of(&rt, alloc, THREE) == Some(10));
    assert!(&rt; lower_of(&rt, alloc, THREE_AT_WALLS) == Some(3));
}

#[test]
fn four_boxes_need_more(rt: HostRuntime) {
    let alloc = rt.alloc();
    assert!(&rt; lower_of(&rt, alloc, FOUR) == Some(15));
    assert!(&rt; lower_of(&rt, alloc, FOUR_AT_WALLS) == Some(3));
}

#[test]
fn five_boxes_need_more(rt: HostRuntime) {
    let alloc = rt.alloc();
    assert!(&rt; lower_of(&rt, alloc, FIVE) == Some(7));
    assert!(&rt; lower_of(&rt, alloc, FIVE_AT_WALLS) == Some(9));
}

#[test]
fn boxes_are_lost(rt: HostRuntime) {
    let alloc = rt.alloc();
    assert!(&rt; lower_of(&rt, alloc, CORRIDOR).is_none());
    assert!(&rt; lower_of(&rt, alloc, THREE_ARE_LOST).is_none());
    assert!(&rt; lower_of(&rt, alloc, FOUR_ARE_LOST).is_none());
    assert!(&rt; lower_of(&rt, alloc, FIVE_ARE_LOST).is_none());
}

// Compares the bound of each position of a level with the slow search. The table is of the whole room, so the bound is
// the fewest pushes.
fn compare_all(rt: &impl Abort, alloc: Global, board: BoardText) {
    let level = level_of(rt, alloc, board);
    let positions = all_positions(rt, alloc, &level);
    let fewest = least_pushes(rt, alloc, &level, positions.as_slice());
    let regions = regions_of(rt, alloc, &level);
    let mut matching = Matching::new();
    for (place, position) in positions.as_slice().iter().enumerate() {
        assert!(rt; position.fits(&level));
        assert!(rt; place < fewest.len());
        let low = regions.lower(position, &mut matching).unwrap_or(LOST);
        assert_eq!(rt;
            low.min(u64::from(NEVER)),
            fewest[place].min(u64::from(NEVER)),
            "place {place}"
        );
    }
}

#[test]
fn of_whole_rooms_the_bound_is_the_fewest_pushes(rt: HostRuntime) {
    for board in [
        WAY_ROUND,
        WRONG_SIDE,
        CORRIDOR,
        BETWEEN,
        FREE,
        THREE_AT_WALLS,
    ] {
        compare_all(&rt, rt.alloc(), board);
    }
}

#[test]
fn one_box_needs_what_it_needs_alone(rt: HostRuntime) {
    let alloc = rt.alloc();
    assert!(&rt; lower_of(&rt, alloc, WAY_ROUND) == Some(2));
    assert!(&rt; lower_of(&rt, alloc, WRONG_SIDE).is_none());
}

#[test]
fn boxes_on_goals_need_no_push(rt: HostRuntime) {
    let alloc = rt.alloc();
    assert!(&rt; lower_of(&rt, alloc, SOLVED) == Some(0));
}

#[test]
fn a_box_where_the_player_never_comes_needs_nothing(rt: HostRuntime) {
    let alloc = rt.alloc();
    assert!(&rt; lower_of(&rt, alloc, SHUT_AWAY) == Some(1));
}

// A box beside its goal that has to go along the corridor to column `end` and back, since a box on a goal shuts the
// way round it. Alone it needs one push.
//
// #######..#####
// ## * ##..   ##
// ##+$  ..    ##
// #######..#####
fn there_and_back(rt: &impl Abort, alloc: Global, end: usize) -> Level {
    assert!(rt; end >= 6 && end <= 200);
    let cols = end + 3;
    let mut changed = Vec::new(alloc);
    for col in 5..end - 1 {
        changed.push((cols + col, b'#')).expect(rt, "memory");
    }
    for (square, byte) in [
        (cols + 1, b'#'),
        (cols + 3, b'*'),
        (2 * cols + 1, b'#'),
        (2 * cols + 2, b'+'),
        (2 * cols + 3, b'$'),
    ] {
        changed.push((square, byte)).expect(rt, "memory");
    }
    let bytes = walled(rt, alloc, 4, cols, b' ', changed.as_slice());
    let cells = cells_of(rt, alloc, bytes.as_slice());
    assert!(rt; cells.len() % cols == 0);
    Level::from_cells(alloc, cols, cells).expect(rt, "a level")
}

// The first push leads `end` - 3 squares away and wastes twice that: the box needs `end` - 4 more pushes to the end
// and `end` - 2 back. A table says 254 of that and of more, and the box alone needs 1.
#[test]
fn a_table_says_at_most_254(rt: HostRuntime) {
    for (end, pushes) in [(129, 253), (130, 255), (131, 255), (140, 255)] {
        let level = there_and_back(&rt, rt.alloc(), end);
        let regions = regions_of(&rt, rt.alloc(), &level);
        let start = Position::start(&level).expect(&rt, "few boxes");
        assert!(&rt; start.fits(&level));
        assert_eq!(&rt;
            regions.lower(&start, &mut Matching::new()),
            Some(pushes),
            "to column {end}"
        );
    }
}

// The bound of the start of a level by regions that were chosen for the start as the only sample.
fn chosen_again(rt: &impl Abort, alloc: Global, board: BoardText) -> Option<u64> {
    let level = level_of(rt, alloc, board);
    let mut regions = prices_of(rt, alloc, &level);
    let start = Position::start(&level).expect(rt, "few boxes");
    assert!(rt; start.fits(&level));
    let mut plan = regions
        .plan_for(alloc, &level, BYTES, &[start.copy()])
        .expect(rt, "memory");
    for job in plan.jobs() {
        job.run(alloc).expect(rt, "memory");
    }
    regions.take_later(alloc, &level, plan).expect(rt, "memory");
    regions.lower(&start, &mut Matching::new())
}

#[test]
fn regions_that_are_chosen_again_count_beside_the_first(rt: HostRuntime) {
    let alloc = rt.alloc();
    assert!(&rt; chosen_again(&rt, alloc, BLOCKED) == Some(6));
    assert!(&rt; chosen_again(&rt, alloc, FOUR) == Some(15));
    assert!(&rt; chosen_again(&rt, alloc, FIVE_AT_WALLS) == Some(9));
    assert!(&rt; chosen_again(&rt, alloc, FIVE_ARE_LOST).is_none());
}

#[test]
fn plans_of_other_levels_change_nothing(rt: HostRuntime) {
    let alloc = rt.alloc();
    let level = level_of(&rt, alloc, BLOCKED);
    let other = level_of(&rt, alloc, FREE);
    let mut regions = regions_of(&rt, alloc, &level);
    let strange = prices_of(&rt, alloc, &other);
    let mut plan = strange.plan(alloc, &other, BYTES).expect(&rt, "memory");
    for job in plan.jobs() {
        job.run(alloc).expect(&rt, "memory");
    }
    regions.take(alloc, &level, plan).expect(&rt, "memory");
    let again = strange
        .plan_for(alloc, &other, BYTES, &[])
        .expect(&rt, "memory");
    regions
        .take_later(alloc, &level, again)
        .expect(&rt, "memory");
    let start = Position::start(&level).expect(&rt, "few boxes");
    assert!(&rt; start.fits(&level));
    assert!(&rt; regions.lower(&start, &mut Matching::new()) == Some(6));
}

#[test]
fn laws_can_be_called(rt: HostRuntime) {
    let level = level_of(&rt, rt.alloc(), BLOCKED);
    excess_is_bound(&level);
    parts_add_up(&level);
}
