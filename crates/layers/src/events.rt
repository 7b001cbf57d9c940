ghost use Rattle.std.specs.Prelude.{◌≡◌, ◌+◌, ◌<◌, ◌≤◌, [], ◌∷◌, ◌++◌, Some, false, true, slice_get, slice_index_or};
ghost use Rattle.std.specs.Prelude.{slice_set, vec_len, IfNone, IfSome, IfErr};
ghost use Rattle.std.specs.Prelude.{OnOk, OnErr, IfOk, length};
ghost use Rattle.std.specs.Vec.{vec_capacity};
ghost use Rattle.successors.specs.inside.Dealt.{successor_places};
ghost use Rattle.layers.specs.declared.limits.TheConstants.{MOST_POSITIONS};
ghost use Rattle.layers.specs.Books.{IsAtWork, MayBegin, with_begun, BeginRefused, ClaimAnswer, MayEnter, with_parcel};
ghost use Rattle.layers.specs.Books.{HandBackRefused, after_refusal};
ghost use Rattle.layers.specs.Books.{with_reopened, IsClosedBy, CloseRefused};

use crate::book::{Book, Claim, Closed};
use crate::fault::{BeginFault, CloseFault, Refusal};
use crate::layer::Layer;
use crate::marks::Marks;
use store::most_pending;
use successors::Parcel;

impl Book {
    /// Opens the ranks of the last closed layer. An error leaves the book unchanged.
    pub fn begin(&mut self, layer: &Layer) -> Result<(), BeginFault>
        ensures may { OnOk result (MayBegin self.old layer.now) }
        ensures ok { OnOk result (self.new ≡ with_begun self.old (length layer.now.places)) }
        ensures fault { IfErr result (λ fault. BeginRefused self.old layer.now fault) }
        ensures err { OnErr result (self.new ≡ self.old) }
    {
        if !self.is_of_layer(layer) {
            return Err(BeginFault::OtherLevel);
        }
        if layer.number() != self.layer() || self.begun {
            return Err(BeginFault::OtherLayer);
        }
        let ranks = layer.len() as usize;
        self.claimed.begin(ranks)?;
        if self.done.begin(ranks).is_err() {
            self.claimed.clear();
            return Err(BeginFault::OutOfMemory);
        }
        layer.tell();
        self.next = 0;
        self.begun = true;
        Ok(())
    }

    /// Claims the least rank of the layer at work that is neither done nor claimed. `None` if there is none or
    /// nothing has begun.
    pub fn claim(&mut self) -> Option<Claim>
        ensures { ClaimAnswer self.old result self.new }
    {
        let layer = self.layer();
        if self.done.are_all_set() {
            return None;
        }
        for rank in self.next..self.done.len() {
            if !self.claimed.is_set(rank) && !self.done.is_set(rank) {
                self.claimed.set(rank);
                self.next = rank + 1;
                return Some(Claim {
                    layer,
                    rank: rank as u64,
                });
            }
        }
        None
    }

    /// Accepts the successors of a rank, whether or not a worker claimed it. It marks the rank done and adds one to the
    /// worker's tally. The successors of the book's share that are in no closed layer are then open, each with the
    /// least rank and push so far. If the book would hold more positions than its limit, this marks it over, and the
    /// error is `Over` from then on. Every other error leaves the book unchanged. `worker` is less than
    /// [`Book::workers`].
    pub fn hand_back(&mut self, worker: u8, parcel: &Parcel<'_>) -> Result<(), Refusal>
        requires { worker < self.old.workers }
        ensures may { OnOk result (MayEnter self.old parcel.now) }
        ensures ok { OnOk result (self.new ≡ with_parcel self.old worker parcel.now) }
        ensures refusal { IfErr result (λ refusal. HandBackRefused self.old parcel.now refusal) }
        ensures err { IfErr result (λ refusal. self.new ≡ after_refusal self.old refusal) }
    {
        if !parcel.is_of(&self.problem) {
            return Err(Refusal::OtherLevel);
        }
        self.hand_back_own(worker, parcel)
    }

    /// [`Book::hand_back`] of a parcel that is known to be of the book's level and cap. It does not compare them, which
    /// takes longer than the rest on a large grid.
    pub fn hand_back_own(&mut self, worker: u8, parcel: &Parcel<'_>) -> Result<(), Refusal>
        requires worker { worker < self.old.workers }
        requires level { parcel.now.level ≡ self.old.level }
        ensures may { OnOk result (MayEnter self.old parcel.now) }
        ensures ok { OnOk result (self.new ≡ with_parcel self.old worker parcel.now) }
        ensures refusal { IfErr result (λ refusal. HandBackRefused self.old parcel.now refusal) }
        ensures err { IfErr result (λ refusal. self.new ≡ after_refusal self.old refusal) }
    {
        parcel.tell();
        if let Some(refusal) = self.refusal_of(parcel) {
            return Err(refusal);
        }
        let successors = parcel.successors();
        if self.over {
            return Err(Refusal::Over);
        }
        let rank = parcel.rank() as usize;
        if brings_nothing(parcel, self.share, self.shares) {
            mark(&mut self.done, &mut self.tallies, worker, rank);
            return Ok(());
        }
        let limit = self.limit as usize;
        if self
            .found
            .passes(limit, self.share, self.shares, successors)
        {
            self.over = true;
            return Err(Refusal::Over);
        }
        // the last worker number belongs to the caller, which does the ranks that the workers left
        let most = most_pending(worker, self.workers - 1, self.share, self.shares);
        self.found.enter_all(most, self.share, self.shares, parcel)?;
        mark(&mut self.done, &mut self.tallies, worker, rank);
        Ok(())
    }

    // The reason to refuse a parcel of the book's level without a look at its successors: its rank is not one that is
    // still to be done.
    fn refusal_of(&self, parcel: &Parcel<'_>) -> Option<Refusal>
        requires { parcel.now.level ≡ self.now.level }
        ensures none { IfNone result (IsAtWork self.now parcel.now ×
            (slice_get self.now.done parcel.now.rank ≡ Some false)) }
        ensures some { IfSome result (λ refusal. HandBackRefused self.now parcel.now refusal) }
        ensures unchanged { IfSome result (λ refusal. after_refusal self.now refusal ≡ self.now) }
    {
        if parcel.layer() != self.layer() {
            return Some(Refusal::OtherLayer);
        }
        match self.done.get(parcel.rank() as usize) {
            None => Some(Refusal::NoSuchRank),
            Some(true) => Some(Refusal::Double),
            Some(false) => None,
        }
    }

    /// Frees the ranks that are claimed and not done.
    pub fn reopen(&mut self)
        ensures { self.new ≡ with_reopened self.old }
    {
        self.claimed.copy_from(&self.done);
        self.next = 0;
    }

    /// Closes the next layer, if each rank of the layer at work is done: the open positions become its list, in the
    /// order of ranks and pushes. An error leaves the book unchanged.
    pub fn close(&mut self) -> Result<Closed, CloseFault>
        ensures ok { IfOk result (λ closed. IsClosedBy self.old closed self.new) }
        ensures fault { IfErr result (λ fault. CloseRefused self.old fault) }
        ensures err { OnErr result (self.new ≡ self.old) }
    {
        if !self.begun || !self.done.are_all_set() {
            return Err(CloseFault::NotAll);
        }
        let layer = self.starts.len() as u64;
        let start = self.found.closed_len();
        self.starts.reserve(1)?;
        self.found.close()?;
        let count = self.found.closed_len() - start;
        self.starts.push_reserved(start);
        self.claimed.clear();
        self.done.clear();
        self.next = 0;
        self.begun = false;
        Ok(Closed {
            layer,
            count: count as u64,
        })
    }
}

// Whether no successor of a parcel is of the share. Returns `false` if the parcel is not dealt to `shares` shares.
fn brings_nothing(parcel: &Parcel<'_>, share: u8, shares: u8) -> bool
    requires { share < shares }
    ensures { result ≡ true → successor_places shares share parcel.now.successors ≡ [] }
{
    match parcel.places(share, shares) {
        Some(places) => places.is_empty(),
        None => false,
    }
}

// Marks a rank done and adds one to the worker's tally.
#[inline(always)]
fn mark(done: &mut Marks, tallies: &mut Vec<u64>, worker: u8, rank: usize)
    requires rank { slice_get done.old rank ≡ Some false }
    requires worker { worker < length tallies.old.items }
    requires few { slice_index_or tallies.old.items worker 0 ≤ MOST_POSITIONS }
    ensures done { done.new ≡ slice_set done.old rank true }
    ensures tally { tallies.new.items ≡
        slice_set tallies.old.items worker (slice_index_or tallies.old.items worker 0 + 1) }
{
    done.set(rank);
    tallies[worker as usize] += 1;
}
