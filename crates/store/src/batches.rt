//! Offers enter in batches. The keys of a batch are looked up first. No look-up depends on another one, so the
//! processor waits for several at once. Most offers then prove to change nothing, and the others find the map in the
//! cache.
ghost use Rattle.std.specs.Prelude.{◌≡◌, ◌+◌, ◌<◌, ◌≤◌, length, true};
ghost use Rattle.indexmap.specs.IndexMap.{spare};
ghost use Rattle.store.specs.inside.KeyRows.{AreDigests, key_digest};
ghost use Rattle.store.specs.inside.Indices.{AreIndicesOf, IsIndexOf};
ghost use Rattle.store.specs.FoundView.{IsFound, all_let_in, keeps, let_in, open_of, seen_of};

use crate::entering::enter;
use crate::key::Key;
use crate::origin::{ClosedOrigin, Origin};
use crate::probe::Probe;
use grid::MAX_BOXES;
use indexmap::IndexMap;

/// The number of offers in a batch.
pub(crate) const BATCH: usize = 64;

/// The index of a key that is not in the map.
const NOWHERE: usize = usize::MAX;

/// Enters offers in batches.
pub(crate) fn enter_in_batches<const N: usize, const M: usize>(
    table: &mut IndexMap<Key<N, M>, ClosedOrigin>,
    start: usize,
    offers: &[(Key<N, M>, Origin)],
)
    requires width { (N ≤ MAX_BOXES + 1) × (M ≤ MAX_BOXES + 1) }
    requires capacity { length offers.now ≤ spare table.old }
    requires found { IsFound start table.old.entries }
    ensures found { IsFound start table.new.entries }
    ensures seen { seen_of start table.new.entries ≡ seen_of start table.old.entries }
    ensures waiting { open_of start table.new.entries ≡
        all_let_in (seen_of start table.old.entries) (open_of start table.old.entries) offers.now }
    ensures capacity { spare table.old ≤ spare table.new + length offers.now }
{
    let mut rest = offers;
    while !rest.is_empty() {
        let count = rest.len().min(BATCH);
        enter_batch(table, start, &rest[..count]);
        rest = &rest[count..];
    }
}

// Enters a batch of offers.
fn enter_batch<const N: usize, const M: usize>(
    table: &mut IndexMap<Key<N, M>, ClosedOrigin>,
    start: usize,
    offers: &[(Key<N, M>, Origin)],
)
    requires width { (N ≤ MAX_BOXES + 1) × (M ≤ MAX_BOXES + 1) }
    requires few { length offers.now ≤ BATCH }
    requires capacity { length offers.now ≤ spare table.old }
    requires found { IsFound start table.old.entries }
    ensures found { IsFound start table.new.entries }
    ensures seen { seen_of start table.new.entries ≡ seen_of start table.old.entries }
    ensures waiting { open_of start table.new.entries ≡
        all_let_in (seen_of start table.old.entries) (open_of start table.old.entries) offers.now }
    ensures capacity { spare table.old ≤ spare table.new + length offers.now }
{
    let mut digests = [0; BATCH];
    digest_all(offers, &mut digests);
    let mut indices = [NOWHERE; BATCH];
    look_up(table, offers, &digests, &mut indices);
    enter_each(table, start, offers, &indices);
}

// Writes the digests of the offers' keys.
fn digest_all<const N: usize, const M: usize>(offers: &[(Key<N, M>, Origin)], digests: &mut [u64])
    requires width { (N ≤ MAX_BOXES + 1) × (M ≤ MAX_BOXES + 1) }
    requires capacity { length offers.now ≤ length digests.old }
    ensures digests { AreDigests N M offers.now digests.new }
    ensures capacity { length digests.new ≡ length digests.old }
{
    for (nth, offer) in offers.iter().enumerate() {
        digests[nth] = offer.0.digest();
    }
}

// Writes the indices of the offers' keys, whose digests are given.
fn look_up<const N: usize, const M: usize>(
    table: &IndexMap<Key<N, M>, ClosedOrigin>,
    offers: &[(Key<N, M>, Origin)],
    digests: &[u64],
    indices: &mut [usize],
)
    requires width { (N ≤ MAX_BOXES + 1) × (M ≤ MAX_BOXES + 1) }
    requires digests { AreDigests N M offers.now digests.now }
    requires many { length offers.now ≤ length digests.now }
    requires indices { length offers.now ≤ length indices.old }
    ensures { AreIndicesOf table.now.entries offers.now indices.new }
{
    for (nth, offer) in offers.iter().enumerate() {
        indices[nth] = index_of(table, &offer.0, digests[nth]);
    }
}

// The index of a key, whose digest is given, or `NOWHERE`.
#[inline(always)]
fn index_of<const N: usize, const M: usize>(
    table: &IndexMap<Key<N, M>, ClosedOrigin>,
    key: &Key<N, M>,
    digest: u64,
) -> usize
    requires width { (N ≤ MAX_BOXES + 1) × (M ≤ MAX_BOXES + 1) }
    requires digest { digest ≡ key_digest N M key.now }
    ensures { IsIndexOf table.now.entries result key.now }
{
    let probe = Probe::of(key, digest);
    match table.get_index_of(&probe) {
        Some(index) => index,
        None => NOWHERE,
    }
}

// Enters offers in order. Each index is that of the offer's key, or `NOWHERE`.
fn enter_each<const N: usize, const M: usize>(
    table: &mut IndexMap<Key<N, M>, ClosedOrigin>,
    start: usize,
    offers: &[(Key<N, M>, Origin)],
    indices: &[usize],
)
    requires width { (N ≤ MAX_BOXES + 1) × (M ≤ MAX_BOXES + 1) }
    requires indices { AreIndicesOf table.old.entries offers.now indices.now }
    requires capacity { length offers.now ≤ spare table.old }
    requires found { IsFound start table.old.entries }
    ensures found { IsFound start table.new.entries }
    ensures seen { seen_of start table.new.entries ≡ seen_of start table.old.entries }
    ensures waiting { open_of start table.new.entries ≡
        all_let_in (seen_of start table.old.entries) (open_of start table.old.entries) offers.now }
    ensures capacity { spare table.old ≤ spare table.new + length offers.now }
{
    for (nth, offer) in offers.iter().enumerate() {
        enter_at(table, start, offer, indices[nth]);
    }
}

// Enters an offer. The index is that of its key, or `NOWHERE`.
#[inline(always)]
fn enter_at<const N: usize, const M: usize>(
    table: &mut IndexMap<Key<N, M>, ClosedOrigin>,
    start: usize,
    offer: &(Key<N, M>, Origin),
    index: usize,
)
    requires width { (N ≤ MAX_BOXES + 1) × (M ≤ MAX_BOXES + 1) }
    requires index { IsIndexOf table.old.entries index offer.now.0 }
    requires capacity { 0 < spare table.old }
    requires found { IsFound start table.old.entries }
    ensures found { IsFound start table.new.entries }
    ensures seen { seen_of start table.new.entries ≡ seen_of start table.old.entries }
    ensures waiting { open_of start table.new.entries ≡
        let_in (seen_of start table.old.entries) (open_of start table.old.entries) offer.now }
    ensures capacity { spare table.old ≤ spare table.new + 1 }
{
    if changes_nothing(table, start, offer, index) {
        return;
    }
    enter(table, start, &offer.0, offer.1);
}

// Whether the index shows that an offer changes nothing: it is that of a closed position, or of an open one whose
// origin is no greater. Reads no key.
#[inline(always)]
fn changes_nothing<const N: usize, const M: usize>(
    table: &IndexMap<Key<N, M>, ClosedOrigin>,
    start: usize,
    offer: &(Key<N, M>, Origin),
    index: usize,
) -> bool
    requires width { (N ≤ MAX_BOXES + 1) × (M ≤ MAX_BOXES + 1) }
    requires index { IsIndexOf table.now.entries index offer.now.0 }
    requires found { IsFound start table.now.entries }
    ensures { result ≡ true →
        true ≡ keeps (seen_of start table.now.entries) (open_of start table.now.entries) offer.now.0 offer.now.1 }
{
    if index == NOWHERE {
        return false;
    }
    if index < start {
        return true;
    }
    let Some((_, known)) = table.get_index(index) else {
        unreachable!()
    };
    !known.exceeds(offer.1)
}
