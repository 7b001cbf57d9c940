//! The play that leads to a position, read back through the layers.
ghost use Rattle.std.specs.Prelude.{◌≡◌, ◌<◌, length, slice_get, Some};
ghost use Rattle.layers.specs.LayerView.{LayerView};
ghost use Rattle.solo.specs.Leads.{AreFirstLayers, level_of};

use super::{AMPLE, book_of, joined, work_through};
use crate::boards::THERE_AND_BACK;
use area::Scratch;
use layers::Layer;
use solo::moves_to;
use std::alloc::Global;
use std::process::Abort;

/// The first layers of a level.
fn first_layers(rt: &impl Abort, alloc: Global, text: &[u8], count: u64) -> Vec<Layer> {
    let mut book = book_of(rt, alloc, text, AMPLE);
    let mut layers = Vec::new(alloc);
    for _ in 0..count {
        let layer = joined(rt, alloc, &book);
        work_through(rt, alloc, &mut book, &layer, false);
        layers.push(layer).expect(rt, "memory");
    }
    drop(book);
    layers
}

/// Checks that a layer has the problem of the first one, and the number of its place.
fn check_place(rt: &impl Abort, layers: &[Layer], place: usize)
    requires { place < length layers.now }
    ensures { (layer : LayerView) → slice_get layers.now place ≡ Some layer →
        (layer.level ≡ level_of layers.now) × (layer.number ≡ place) }
{
    let layer = &layers[place];
    assert!(rt; layer.number() == place as u64);
    assert!(rt; layer.problem().is(layers[0].problem()));
}

/// Checks that the layers are layers 0 to k of one level.
fn check_first(rt: &impl Abort, layers: &[Layer])
    ensures { AreFirstLayers layers.now }
{
    assert!(rt; layers.len() >= 1);
    for place in 0..layers.len() {
        check_place(rt, layers, place);
    }
}

/// The text of the play that leads to the first position of the last of these layers.
fn lead_to(rt: &impl Abort, alloc: Global, layers: &[Layer]) -> Vec<u8> {
    check_first(rt, layers);
    assert!(rt; layers[layers.len() - 1].len() >= 1);
    let mut scratch = Scratch::new(alloc, layers[0].level()).expect(rt, "memory");
    let moves = moves_to(alloc, layers, 0, &mut scratch).expect(rt, "memory");
    let mut text = Vec::new(alloc);
    lurd::write(&moves, &mut text).expect(rt, "memory");
    text
}

/// Checks the play that leads to the first position of the last of the first layers.
fn check_lead(rt: &impl Abort, alloc: Global, count: u64, play: &[u8]) {
    let layers = first_layers(rt, alloc, THERE_AND_BACK, count);
    let text = lead_to(rt, alloc, layers.as_slice());
    assert!(rt; text.as_slice() == play, "{count} layers");
}

#[test]
fn the_box_is_led_there_and_back(rt: HostRuntime) {
    let alloc = rt.alloc();
    check_lead(&rt, alloc, 1, b"");
    check_lead(&rt, alloc, 2, b"R");
    check_lead(&rt, alloc, 3, b"RR");
    check_lead(&rt, alloc, 4, b"RRdrruL");
    check_lead(&rt, alloc, 7, b"RRdrruLLLL");
}
