//! Keys for look-ups with a digest made beforehand.
ghost use Rattle.std.specs.Prelude.{◌≡◌};
ghost use Rattle.store.specs.inside.KeyRows.{key_digest};

use crate::key::{Key, same_rows};
use indexmap::Equivalent;
use std::hash::{Hash, Hasher};
use std::marker::Model;

/// The borrowed fields of a key with its digest, so that a look-up does not compute it.
#[derive(Drop)]
pub(crate) struct Probe<'k, const N: usize, const M: usize> {
    boxes: u8,
    low: &'k [u8],
    high: &'k [u8],
    digest: u64,
}

impl<'k, const N: usize, const M: usize> Model for Probe<'k, N, M> {
    ghost use Rattle.std.specs.Prelude.{◌≡◌};
    ghost use Rattle.grid.specs.Board.{Scene};
    ghost use Rattle.store.specs.inside.KeyRows.{IsKey, key_digest, key_scene};

    ghost Value = { Scene };

    ghost view = { λ a. key_scene a.boxes a.low.now a.high.now };

    ghost invariant = { λ a. IsKey N M a.boxes a.low.now a.high.now
        × (a.digest ≡ key_digest N M (key_scene a.boxes a.low.now a.high.now)) };
}

impl<'k, const N: usize, const M: usize> Probe<'k, N, M> {
    /// A borrowed key with its digest.
    #[inline(always)]
    pub(crate) fn of(key: &'k Key<N, M>, digest: u64) -> Probe<'k, N, M>
        requires { digest ≡ key_digest N M key.now }
        ensures { result ≡ key.now }
    {
        Probe {
            boxes: key.boxes,
            low: &key.low,
            high: &key.high,
            digest,
        }
    }
}

impl<'k, const N: usize, const M: usize> PartialEq for Probe<'k, N, M> {
    ghost use Rattle.std.proofs.Common.{rules};
    ghost use Rattle.std.specs.Cmp.Rules.{comparing};
    ghost use Rattle.store.specs.Entries.{same_scene};

    ghost eq = { same_scene };

    ghost laws = { Prim.search (comparing, rules) };

    fn eq(&self, other: &Probe<'k, N, M>) -> bool {
        same_rows(
            self.boxes,
            self.low,
            self.high,
            other.boxes,
            other.low,
            other.high,
        )
    }
}

impl<'k, const N: usize, const M: usize> Eq for Probe<'k, N, M> {
    ghost use Rattle.std.proofs.Common.{rules};
    ghost use Rattle.std.specs.Cmp.Rules.{comparing};

    ghost laws = { Prim.search (comparing, rules) };
}

impl<'k, const N: usize, const M: usize> Hash for Probe<'k, N, M> {
    ghost use Rattle.store.specs.inside.KeyRows.{key_input, keys_alike};

    ghost hash_input = { key_input N M };

    ghost respects_eq = { keys_alike N M };

    #[inline(always)]
    fn hash<H: Hasher>(&self, state: &mut H) {
        state.write_u64(self.digest);
    }
}

impl<'k, const N: usize, const M: usize> Equivalent<Key<N, M>> for &Probe<'k, N, M> {
    ghost use Rattle.store.specs.Entries.{same_scene};
    ghost use Rattle.store.specs.inside.KeyRows.{keys_alike, same_alike};

    ghost equivalent = { λ q. same_scene q.now };

    ghost respects_hash = { λ q. keys_alike N M q.now };

    ghost respects_eq = { λ q. same_alike q.now };

    #[inline(always)]
    fn equivalent(&self, key: &Key<N, M>) -> bool {
        same_rows(
            self.boxes, self.low, self.high, key.boxes, &key.low, &key.high,
        )
    }
}
