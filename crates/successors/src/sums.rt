//! The sums that decide the shares of positions.
ghost use Rattle.std.specs.Prelude.{◌≡◌, ◌*◌, ◌%◌, ◌<◌, ◌≤◌, sum};
ghost use Rattle.successors.specs.Shares.{share_of};
ghost use Rattle.successors.specs.inside.Sums.{scene_sum};

use grid::{MAX_BOXES, Position};

/// The sum of a position's box squares.
pub(crate) fn box_sum(position: &Position) -> u32
    ensures sum { result ≡ sum position.now.boxes }
    ensures bound { result ≤ 65535 * MAX_BOXES }
{
    let boxes = position.boxes();
    let mut sum = 0;
    for square in boxes {
        sum += u32::from(square.0);
    }
    sum
}

/// The sum of a position's box squares and its player's square.
fn sum_of(position: &Position) -> u32
    ensures { result ≡ scene_sum position.now }
{
    box_sum(position) + u32::from(position.player().0)
}

/// The share of a position whose squares have this sum: the sum modulo the number of shares, which is at least 1.
/// Powers of two avoid a division, which takes longer than all else that is done with a sum. Public for crates that
/// store what a parcel holds.
pub fn share_by(sum: u32, shares: u8) -> u8
    requires { 0 < shares }
    ensures { result ≡ sum % shares }
{
    match shares {
        1 => 0,
        2 => (sum % 2) as u8,
        4 => (sum % 4) as u8,
        8 => (sum % 8) as u8,
        16 => (sum % 16) as u8,
        _ => (sum % u32::from(shares)) as u8,
    }
}

/// The share of a position: the sum of its box squares and its player's square, modulo the number of shares, which is
/// at least 1. Public for crates that keep the positions of a share.
pub fn share_of(position: &Position, shares: u8) -> u8
    requires { 0 < shares }
    ensures { result ≡ share_of shares position.now }
{
    share_by(sum_of(position), shares)
}
