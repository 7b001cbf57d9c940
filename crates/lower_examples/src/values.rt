//! Readers, small values and laws of the lowest crates.
use crate::boards::{BoardText, level_of};
use area::SquareSet;
use area::bits::{has, put};
use grid::{Dir, Letter, Moves, Position, Square};

const HALL: BoardText = (6, b"#######.$  ##    ##   @#######");

#[test]
fn levels_have_a_room(rt: HostRuntime) {
    let level = level_of(&rt, rt.alloc(), HALL);
    assert!(&rt; level.squares() == 30);
    let room = level.room_mask();
    assert!(&rt; has(room, Square(8)) && !has(room, Square(6)));
}

#[test]
fn moves_are_cut_off(rt: HostRuntime) {
    let mut moves = Moves::new(rt.alloc());
    for dir in Dir::ALL {
        moves
            .push(Letter { dir, push: false })
            .expect(&rt, "memory");
    }
    moves.truncate(1);
    assert!(&rt; moves.len() == 1 && moves.as_slice()[0].dir == Dir::D);
}

#[test]
fn a_box_is_pushed_past_another(rt: HostRuntime) {
    let position = Position::of(&[Square(8), Square(9)], Square(7)).expect(&rt, "a position");
    let mut other = Position::default();
    other.copy_from(&position);
    assert!(&rt; other == position);
    assert!(&rt; other.contains(Square(8)) && !other.contains(Square(10)));
    other.push_at(0, Square(8), Square(10));
    assert!(&rt; other.boxes() == [Square(9), Square(10)].as_slice());
    assert!(&rt; other.player() == Square(8));
}

#[test]
fn sets_have_what_was_put_in(rt: HostRuntime) {
    let mut set = SquareSet::none(rt.alloc(), 70).expect(&rt, "memory");
    assert!(&rt; set.as_words().len() == 2);
    set.put(Square(69));
    assert!(&rt; set.has(Square(69)) && has(set.as_words(), Square(69)));
    set.clear();
    assert!(&rt; !set.has(Square(69)));
    let mut words = [0; 2];
    put(Square(69), &mut words);
    assert!(&rt; has(&words, Square(69)) && !has(&words, Square(5)));
}

#[test]
fn laws_can_be_called() {
    grid::laws::a_level_begins_in_a_state();
    grid::laws::a_step_is_decided();
    grid::laws::walks_can_be_walked_back();
    grid::laws::a_play_keeps_states();
    grid::laws::a_play_is_decided();
    grid::laws::equal_sets_are_equal_lists();
    grid::laws::directions_and_pushes_are_ordered();
    grid::laws::positions_are_ordered();
    grid::laws::solutions_are_ordered();
    xsb::laws::one_collection();
    lurd::laws::one_reading();
    lurd::laws::written_text();
    lurd::laws::one_verdict();
    lurd::laws::solved_is_solution();
    layers::laws::a_book_stays_lawful();
    layers::laws::a_new_book_is_lawful();
    layers::laws::the_order_of_events_leaves_no_trace();
    layers::laws::a_begun_book_has_the_ranks_of_its_layer();
    layers::laws::the_shares_make_up_the_layer();
    layers::laws::the_books_of_all_shares_hold_the_layers();
    layers::laws::the_books_of_all_shares_hold_the_layers_and_some_of_the_next();
    solo::laws::an_answer_is_the_only_one();
    solo::laws::the_limit_is_passed_by_the_positions_needed();
    solo::laws::an_empty_layer_is_the_last();
    solo::laws::a_book_that_is_over_passes_the_limit();
    solo::laws::books_that_hold_more_together_pass_the_limit();
}
