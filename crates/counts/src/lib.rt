//! Counts in both notations: one to four decimal digits that write a number from 1 to 9999, the number of times that
//! what follows is repeated. Use it to read the digits before a cell or a letter. It takes no memory.
//!
//! ```text
//! assert_eq!(&rt; counts::digit_count(b"12#"), 2);
//! assert_eq!(&rt; counts::times(b"12"), Some(12));
//! ```
#![tactic(auto)]

ghost use Rattle.std.specs.Prelude.{◌≡◌, ◌≤◌, length, IfSome, IfNone};
ghost use Rattle.std.specs.Char.{is_ascii_digit};
ghost use Rattle.std.specs.List.{prefix_len};
ghost use Rattle.counts.specs.Counts.{AreDigits, Means, decimal};
ghost use Rattle.counts.specs.NoCount.{IsNoCount};

/// The greatest number of digits of a count.
pub const MAX_DIGITS: usize = 4;

/// How many digits the bytes begin with.
pub fn digit_count(bytes: &[u8]) -> usize
    ensures count { result ≡ prefix_len is_ascii_digit bytes.now }
    ensures within { result ≤ length bytes.now }
{
    bytes
        .iter()
        .take_while(|byte| byte.is_ascii_digit())
        .count()
}

/// How many times what follows these digits is repeated; no digits mean once. `None` if they are no count: more than
/// [`MAX_DIGITS`] digits, or the value 0.
#[tactic(auto, using(crate::proofs::lemmas::Digits::too_long, crate::proofs::lemmas::Digits::writes_nothing))]
pub fn times(digits: &[u8]) -> Option<usize>
    requires { AreDigits digits.now }
    ensures some { IfSome result (λ n. Means digits.now n) }
    ensures none { IfNone result (IsNoCount digits.now) }
{
    if digits.is_empty() {
        return Some(1);
    }
    if digits.len() > MAX_DIGITS {
        return None;
    }
    let count = decimal(digits);
    (count > 0).then_some(count)
}

// The number that digits write.
fn decimal(digits: &[u8]) -> usize
    requires all { AreDigits digits.now }
    requires short { length digits.now ≤ MAX_DIGITS }
    ensures { result ≡ decimal digits.now }
{
    let mut number = 0;
    for digit in digits {
        number = number * 10 + (*digit - b'0') as usize;
    }
    number
}
