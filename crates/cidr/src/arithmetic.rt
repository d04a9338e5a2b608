//! The arithmetic of networks on the numbers of IPv4 addresses, of 32 bits. `halves` has that of 128 bits.
ghost use Rattle.std.specs.Prelude.{◌≡◌, ◌≢◌, ◌+◌, ◌-◌, ◌*◌, ◌/◌, ◌%◌, ◌^◌, ◌<◌, ◌≤◌, ◌↔◌, ◌==◌, ℕ, cond, IsTrue};
ghost use Rattle.std.specs.Int.{bit_at};
ghost use Rattle.std.specs.Int.Bits.{bit_xor};
ghost use Rattle.std.specs.Ordering.{nat_cmp, ordering_then};

pub(crate) mod half;
pub(crate) mod halves;

use std::cmp::Ordering;

/// Whether two numbers of 32 bits have the same first `len` bits.
pub(crate) fn same_first_bits(value: u32, other: u32, len: u8) -> bool
    requires { len ≤ 32 }
    ensures { IsTrue result ↔ (value / 2 ^ (32 - len) ≡ other / 2 ^ (32 - len)) }
{
    (value ^ other).leading_zeros() >= u32::from(len)
}

/// The greatest number of the bits from `len` on, of 32: all ones.
#[tactic(auto, using(crate::proofs::HalfNumbers::ones_laws))]
pub(crate) fn host_mask(len: u8) -> u32
    requires { len ≤ 32 }
    ensures { result ≡ 2 ^ (32 - len) - 1 }
{
    (0xffff_ffff_u64 >> len) as u32
}

/// The number of the bits from `len` on, of 32.
#[tactic(auto, using(std::proofs::lemmas::Nat::and_mask))]
pub(crate) fn host_part(value: u32, len: u8) -> u32
    requires { len ≤ 32 }
    ensures { result ≡ value % 2 ^ (32 - len) }
{
    value & host_mask(len)
}

/// The first number of the network, of 32 bits: the bits from `len` on are zero.
pub(crate) fn first_number(value: u32, len: u8) -> u32
    requires { len ≤ 32 }
    ensures { result ≡ value / 2 ^ (32 - len) * 2 ^ (32 - len) }
{
    value - host_part(value, len)
}

/// The last number of the network, of 32 bits: the bits from `len` on are one.
#[tactic(auto, using(crate::proofs::StepNumbers::step_laws))]
pub(crate) fn last_number(value: u32, len: u8) -> u32
    requires { len ≤ 32 }
    ensures { result ≡ value / 2 ^ (32 - len) * 2 ^ (32 - len) + (2 ^ (32 - len) - 1) }
{
    value + (host_mask(len) - host_part(value, len))
}

/// The number of 32 bits `step` further in its network, and whether that wrapped.
#[tactic(auto, using(crate::proofs::StepNumbers::step_laws))]
pub(crate) fn step_up(value: u32, len: u8, step: u128) -> (u32, bool)
    requires { len ≤ 32 }
    ensures value { let count = 2 ^ (32 - len) in
        result.0 ≡ value / count * count + (value % count + step) % count }
    ensures wraps { IsTrue result.1 ↔ (2 ^ (32 - len) ≤ value % 2 ^ (32 - len) + step) }
{
    let host = host_part(value, len);
    let stepped = host_part(host.wrapping_add((step & 0xffff_ffff) as u32), len);
    (
        first_number(value, len) + stepped,
        step > u128::from(host_mask(len) - host),
    )
}

/// The number of 32 bits `step` before in its network, and whether that wrapped.
#[tactic(auto, using(crate::proofs::StepNumbers::step_laws))]
pub(crate) fn step_down(value: u32, len: u8, step: u128) -> (u32, bool)
    requires { len ≤ 32 }
    ensures value { let count = 2 ^ (32 - len) in
        result.0 ≡ value / count * count + (value % count + (count - step % count)) % count }
    ensures wraps { IsTrue result.1 ↔ (value % 2 ^ (32 - len) < step) }
{
    let host = host_part(value, len);
    let stepped = host_part(host.wrapping_sub((step & 0xffff_ffff) as u32), len);
    (first_number(value, len) + stepped, step > u128::from(host))
}

/// The order of two numbers of 32 bits, and where they are the same, that of their lengths, by one comparison.
#[tactic(auto, using(crate::proofs::OrderLaws::key_laws))]
pub(crate) fn order(value: u32, len: u8, other: u32, other_len: u8) -> Ordering
    ensures { result ≡ ordering_then (nat_cmp value other) (nat_cmp len other_len) }
{
    let key = u64::from(value) * 256 + u64::from(len);
    let other_key = u64::from(other) * 256 + u64::from(other_len);
    key.cmp(&other_key)
}

/// How many of the first bits of two numbers of 32 bits are the same.
pub(crate) fn shared_len(value: u32, other: u32) -> u8
    ensures fits { result ≤ 32 }
    ensures shared { (k : ℕ) → k ≤ 32 → (k ≤ result) ↔ (value / 2 ^ (32 - k) ≡ other / 2 ^ (32 - k)) }
{
    (value ^ other).leading_zeros() as u8
}

/// Bit `i` of a number of 32 bits, the most significant first.
pub(crate) fn bit(value: u32, i: u8) -> bool
    requires { i < 32 }
    ensures { result ≡ (bit_at value (31 - i) == 1) }
{
    value >> (31 - u32::from(i)) & 1 == 1
}

/// The number of 32 bits whose bit `i` is `b`, the most significant first.
pub(crate) fn with_bit(value: u32, i: u8, b: bool) -> u32
    requires { i < 32 }
    ensures set { bit_at result (31 - i) ≡ cond b 1 0 }
    ensures kept { (k : ℕ) → k < 32 → k ≢ 31 - i → bit_at result k ≡ bit_at value k }
{
    let place = 1 << (31 - u32::from(i));
    if b { value | place } else { value & !place }
}

/// The number of 32 bits with bit `i` inverted, the most significant first.
#[tactic(auto, using(crate::proofs::HalfNumbers::place_laws))]
pub(crate) fn with_flipped_bit(value: u32, i: u8) -> u32
    requires { i < 32 }
    ensures { result ≡ bit_xor value (2 ^ (31 - i)) }
{
    value ^ ((1 << 31) >> i)
}
