//! The arithmetic of one half: 64 bits of a number of 128.
ghost use Rattle.std.specs.Prelude.{◌≡◌, ◌≢◌, ◌+◌, ◌-◌, ◌*◌, ◌/◌, ◌%◌, ◌^◌, ◌<◌, ◌≤◌, ◌↔◌, ◌==◌, ℕ, cond};
ghost use Rattle.std.specs.Int.{bit_at};

/// The greatest number of the bits from `len` on: all ones, and zero where there are none.
#[tactic(auto, using(crate::proofs::HalfNumbers::ones_laws))]
pub(crate) fn host_mask(len: u8) -> u64
    ensures { result ≡ 2 ^ (64 - len) - 1 }
{
    if len < 64 { u64::MAX >> len } else { 0 }
}

/// The number of the bits from `len` on.
#[tactic(auto, using(std::proofs::lemmas::Nat::and_mask))]
pub(crate) fn host_part(half: u64, len: u8) -> u64
    ensures { result ≡ half % 2 ^ (64 - len) }
{
    half & host_mask(len)
}

/// How much greater the number of the bits from `len` on can be.
#[tactic(auto, using(crate::proofs::HalfNumbers::host_laws))]
pub(crate) fn host_room(half: u64, len: u8) -> u64
    ensures { result ≡ 2 ^ (64 - len) - 1 - half % 2 ^ (64 - len) }
{
    host_mask(len) - host_part(half, len)
}

/// The greatest half with the same first `len` bits: from there on they are one.
#[tactic(auto, using(crate::proofs::HalfNumbers::last_laws))]
pub(crate) fn last_number(half: u64, len: u8) -> u64
    ensures { result ≡ half / 2 ^ (64 - len) * 2 ^ (64 - len) + (2 ^ (64 - len) - 1) }
{
    half + host_room(half, len)
}

/// The first `len` bits of the half, and from there on those of the other.
#[tactic(auto, using(crate::proofs::HalfNumbers::host_laws))]
pub(crate) fn with_host_part(half: u64, other: u64, len: u8) -> u64
    ensures { result ≡ half / 2 ^ (64 - len) * 2 ^ (64 - len) + other % 2 ^ (64 - len) }
{
    half - host_part(half, len) + host_part(other, len)
}

/// How many of the first bits of two halves are the same.
pub(crate) fn shared_len(half: u64, other: u64) -> u8
    ensures fits { result ≤ 64 }
    ensures shared { (k : ℕ) → k ≤ 64 → (k ≤ result) ↔ (half / 2 ^ (64 - k) ≡ other / 2 ^ (64 - k)) }
{
    (half ^ other).leading_zeros() as u8
}

/// Bit `i`, the most significant first.
pub(crate) fn bit(half: u64, i: u8) -> bool
    requires { i < 64 }
    ensures { result ≡ (bit_at half (63 - i) == 1) }
{
    half >> (63 - i) & 1 == 1
}

/// The half whose bit `i` is `b`, the most significant first.
pub(crate) fn with_bit(half: u64, i: u8, b: bool) -> u64
    requires { i < 64 }
    ensures set { bit_at result (63 - i) ≡ cond b 1 0 }
    ensures kept { (k : ℕ) → k < 64 → k ≢ 63 - i → bit_at result k ≡ bit_at half k }
{
    let place = 1 << (63 - i);
    if b { half | place } else { half & !place }
}
