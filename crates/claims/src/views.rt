//! What the seats at a ledger's table know. These types are for contracts: no value of them exists.

use std::collections::LinkedList;

/// What a drawer knows of its ledger.
pub(crate) struct Hand {
    /// The drawer's place.
    pub(crate) place: Option<u8>,
    /// The numbers that it drew, in the order in which it drew them.
    pub(crate) numbers: LinkedList<u32>,
    /// Whether it found that no number is left.
    pub(crate) spent: bool,
    /// The places that it found taken.
    pub(crate) taken: LinkedList<u8>,
}

/// The ledger's length, and the hands of one seat: one for a drawer, two within a meeting.
pub(crate) struct View {
    pub(crate) len: u32,
    pub(crate) hands: LinkedList<Hand>,
}
