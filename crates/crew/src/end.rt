use layers::Refusal;

/// Why a worker ended.
#[derive(Clone, Copy, PartialEq, Eq)]
pub enum End {
    /// No rank of the layer was left to draw.
    Drained,
    /// A book refused a parcel.
    Refused(Refusal),
    /// The gate stopped it.
    Stopped,
    /// The book behind a lock is of another level, at another layer, or made for other workers.
    Foreign,
    /// Another drawer has its place in the ledger.
    NoPlace,
}
