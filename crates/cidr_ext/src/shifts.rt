//! Numbers of at most 128 bits, shifted.
ghost use Rattle.std.specs.Prelude.{◌≡◌, ◌↔◌, ◌*◌, ◌-◌, ◌^◌, ◌<◌, ◌≤◌, IsTrue, MatchOption, ℕ};

/// Whether the number has at most so many bits.
pub(crate) fn fits(number: u128, count: u8) -> bool
    ensures { IsTrue result ↔ (number < 2 ^ count) }
{
    count >= 128 || number >> count == 0
}

/// The number with so many zeros behind its bits.
pub(crate) fn shifted(number: u128, zeros: u8) -> u128
    requires { number * 2 ^ zeros < 2 ^ 128 }
    ensures { result ≡ number * 2 ^ zeros }
{
    if number == 0 { 0 } else { number << zeros }
}

/// The greatest number of so many bits.
pub(crate) fn greatest(count: u8) -> u128
    requires { count ≤ 128 }
    ensures { result ≡ 2 ^ count - 1 }
{
    if count == 0 {
        0
    } else {
        u128::MAX >> (128 - count)
    }
}

/// How many bits a number has that are all ones, or `None` where one below the highest is zero.
pub(crate) fn count_of_ones(number: u128) -> Option<u8>
    ensures { MatchOption result ((k : ℕ) → k ≤ 128 → ¬ (number ≡ 2 ^ k - 1))
        (λ k. (k ≤ 128) × (number ≡ 2 ^ k - 1)) }
{
    let count = (128 - number.leading_zeros()) as u8;
    if number == greatest(count) {
        Some(count)
    } else {
        None
    }
}
