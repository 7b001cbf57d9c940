//! Marks over the ranks of a layer, a bit each: bit i of word k is the mark of rank `WORD_BITS * k + i`.
ghost use Rattle.std.specs.Prelude.{◌≡◌, ℕ, ◌*◌, ◌<◌, ◌==◌, ◌||◌, [], true, false, length, replicate, slice_get};
ghost use Rattle.std.specs.Prelude.{slice_index_or, slice_set, Some, OnOk, OnErr};
ghost use Rattle.std.specs.Bool.{MatchBool};
ghost use Rattle.grid.specs.Masks.{has_bit};

use grid::WORD_BITS;
use std::alloc::{AllocError, Global};
use std::marker::Model;

/// A mark for each rank, set or not.
#[derive(Drop)]
pub(crate) struct Marks {
    words: Vec<u64>,
    // the number of marks, and the number of set ones
    len: usize,
    set: usize,
}

impl Model for Marks {
    ghost use Rattle.std.specs.Prelude.{Bool, List};
    ghost use Rattle.layers.specs.inside.Bits.{AreRankBits, marks_of};

    ghost Value = { List Bool };

    ghost view = { λ a. marks_of a.words.items a.len };

    ghost invariant = { λ a. AreRankBits a.words.items a.len a.set };
}

impl Marks {
    /// No marks.
    pub(crate) fn none(alloc: Global) -> Marks
        ensures { result ≡ [] }
    {
        Marks {
            words: Vec::new(alloc),
            len: 0,
            set: 0,
        }
    }

    /// Makes `ranks` marks, none of them set. Fails only if out of memory, and then leaves no marks.
    pub(crate) fn begin(&mut self, ranks: usize) -> Result<(), AllocError>
        ensures ok { OnOk result (self.new ≡ replicate ranks false) }
        ensures err { OnErr result (self.new ≡ []) }
    {
        self.words.clear();
        self.len = 0;
        self.set = 0;
        self.words.resize(ranks.div_ceil(WORD_BITS), 0)?;
        self.len = ranks;
        Ok(())
    }

    /// The number of marks.
    pub(crate) fn len(&self) -> usize
        ensures { result ≡ length self.now }
    {
        self.len
    }

    /// Whether the mark of a rank is set; `None` exactly beyond the marks.
    pub(crate) fn get(&self, rank: usize) -> Option<bool>
        ensures { result ≡ slice_get self.now rank }
    {
        if rank >= self.len {
            return None;
        }
        Some(has_mark(self.words.as_slice(), rank))
    }

    /// Whether the mark of a rank is set.
    pub(crate) fn is_set(&self, rank: usize) -> bool
        requires { rank < length self.now }
        ensures { result ≡ slice_index_or self.now rank false }
    {
        has_mark(self.words.as_slice(), rank)
    }

    /// Whether each mark is set.
    pub(crate) fn are_all_set(&self) -> bool
        ensures { MatchBool result ((r : ℕ) → r < length self.now → slice_index_or self.now r false ≡ true) ((r : ℕ) ×
            (slice_get self.now r ≡ Some false)) }
    {
        self.set == self.len
    }

    /// Sets the mark of a rank.
    pub(crate) fn set(&mut self, rank: usize)
        requires { slice_get self.old rank ≡ Some false }
        ensures { self.new ≡ slice_set self.old rank true }
    {
        set_mark(rank, self.words.as_mut_slice());
        self.set += 1;
    }

    /// Copies the marks of another list of the same length.
    pub(crate) fn copy_from(&mut self, other: &Marks)
        requires { length self.old ≡ length other.now }
        ensures { self.new ≡ other.now }
    {
        self.words.copy_from_slice(other.words.as_slice());
        self.set = other.set;
    }

    /// Removes all marks.
    pub(crate) fn clear(&mut self)
        ensures { self.new ≡ [] }
    {
        self.words.clear();
        self.len = 0;
        self.set = 0;
    }
}

// Whether the mark of a rank is set.
fn has_mark(words: &[u64], rank: usize) -> bool
    requires { rank < WORD_BITS * length words.now }
    ensures { result ≡ has_bit words.now rank }
{
    (words[rank / WORD_BITS] >> (rank % WORD_BITS)) & 1 == 1
}

// Sets the mark of a rank.
fn set_mark(rank: usize, words: &mut [u64])
    requires { rank < WORD_BITS * length words.old }
    ensures { (q : ℕ) → has_bit words.new q ≡ (has_bit words.old q || rank == q) }
{
    words[rank / WORD_BITS] |= 1 << (rank % WORD_BITS);
}
