//! The settings and the state of a search.
use crate::config::Config;
use crate::desks::Desks;
use crate::gate::Gate;
use grid::Square;
use solo::Search;
use std::alloc::Global;

/// The settings of a search: the allocator, the configuration and the gate.
#[derive(Drop)]
pub(crate) struct Settings<'s, G: Gate> {
    pub(crate) alloc: Global,
    pub(crate) config: Config,
    pub(crate) gate: &'s G,
}

/// The state of a search with workers: the search itself, the memory of the last layer's squares, and the desks of the
/// workers.
#[derive(Drop)]
pub(crate) struct SearchState<'a> {
    pub(crate) search: Search<'a>,
    pub(crate) memory: Vec<Square>,
    pub(crate) desks: Desks<'a>,
}
