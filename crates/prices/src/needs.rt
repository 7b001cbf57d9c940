//! The needs of boxes by the distances of a table and the tolls of the goals.
ghost use Rattle.std.specs.Prelude.{◌≡◌, ℕ, ◌+◌, ◌*◌, ◌<◌, ◌≤◌, length, slice_index_or};
ghost use Rattle.prices.specs.Prices.{sum_over};
ghost use Rattle.prices.specs.inside.Sums.{greatest, least_sum, need_by, need_seen, sum_all};

use crate::table::DistanceTable;
use grid::{MAX_BOXES, Square};

impl DistanceTable {
    /// A lower bound on the needs of boxes on these squares, with the player on another, by a toll for each goal.
    pub(crate) fn needs(&self, boxes: &[Square], player: Square, tolls: &[u32]) -> u64
        requires few { length boxes.now ≤ MAX_BOXES }
        requires tolls { length tolls.now ≡ length self.now.goals.items }
        ensures { result ≡ sum_over (λ b. need_seen self.now tolls.now b player) boxes.now }
    {
        let mut needs = 0;
        for square in boxes {
            needs += u64::from(self.need(*square, player, tolls));
        }
        needs
    }

    /// A lower bound on the need of a box on the square.
    pub(crate) fn need(&self, square: Square, player: Square, tolls: &[u32]) -> u32
        requires { length tolls.now ≡ length self.now.goals.items }
        ensures seen { result ≡ need_seen self.now tolls.now square player }
        ensures low { result ≤ need_by self.now tolls.now square player }
        ensures most { result ≤ greatest }
    {
        let row = self.row(square, player);
        if row.len() != tolls.len() {
            return 0;
        }
        least_sum(row, tolls)
    }
}

// The least sum of a number and the other with its index, at most the greatest number of the type.
#[tactic(auto, using(crate::proofs::Sums::least_sum_most))]
fn least_sum(numbers: &[u32], others: &[u32]) -> u32
    requires { length numbers.now ≡ length others.now }
    ensures most { result ≤ greatest }
    ensures value { result ≡ least_sum numbers.now others.now }
    ensures each { (i : ℕ) → i < length numbers.now →
        result ≤ slice_index_or numbers.now i 0 + slice_index_or others.now i 0 }
{
    let mut least = u32::MAX;
    for (place, number) in numbers.iter().enumerate() {
        least = least.min(number.saturating_add(others[place]));
    }
    least
}

/// The sum of the numbers.
pub(crate) fn sum(numbers: &[u32]) -> u64
    requires { length numbers.now ≤ MAX_BOXES }
    ensures value { result ≡ sum_all numbers.now }
    ensures few { result ≤ MAX_BOXES * greatest }
{
    let mut sum = 0;
    for number in numbers {
        sum += u64::from(*number);
    }
    sum
}
