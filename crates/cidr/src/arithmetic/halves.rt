//! The arithmetic of networks on numbers of 128 bits, in two halves.
ghost use Rattle.std.specs.Prelude.{◌≡◌, ◌≢◌, ◌+◌, ◌-◌, ◌*◌, ◌/◌, ◌%◌, ◌^◌, ◌<◌, ◌≤◌, ◌↔◌, ◌==◌, ℕ, cond, IsTrue};
ghost use Rattle.std.specs.Int.{bit_at};
ghost use Rattle.std.specs.Int.Bits.{bit_xor};
ghost use Rattle.std.specs.Ordering.{nat_cmp, ordering_then};
ghost use Rattle.cidr.specs.internal.Halves.{joined};

use crate::arithmetic::half;
use std::cmp::Ordering;
use std::marker::Model;

/// A number of 128 bits in two halves.
#[derive(Clone, Copy)]
pub(crate) struct Halves {
    upper: u64,
    lower: u64,
}

impl Model for Halves {
    ghost use Rattle.std.specs.Prelude.{ℕ, ◌/◌, ◌%◌, ◌^◌, ◌<◌};
    ghost use Rattle.cidr.specs.internal.Halves.{joined};
    ghost use Rattle.cidr.specs.laws.HalfLaws.{upper-joined, lower-joined};

    ghost Value = { ℕ };

    ghost view = { λ h. joined h.upper h.lower };

    ghost invariant = { λ h. (h.upper < 2 ^ 64) × (h.lower < 2 ^ 64) };

    ghost inverse = { λ n. record { upper = n / 2 ^ 64; lower = n % 2 ^ 64 } };

    ghost inverse_ok = { λ h fit i. record {
      upper = upper-joined h.upper h.lower fit.1 i;
      lower = lower-joined h.upper h.lower fit.1 i;
    } };
}

impl Halves {
    /// The number with these halves.
    pub(crate) fn new(upper: u64, lower: u64) -> Halves
        ensures { result ≡ joined upper lower }
    {
        Halves { upper, lower }
    }

    /// The upper half.
    #[tactic(auto, using(crate::proofs::HalfNumbers::split_laws))]
    pub(crate) fn upper(self) -> u64
        ensures { result ≡ self / 2 ^ 64 }
    {
        self.upper
    }

    /// The lower half.
    #[tactic(auto, using(crate::proofs::HalfNumbers::split_laws))]
    pub(crate) fn lower(self) -> u64
        ensures { result ≡ self % 2 ^ 64 }
    {
        self.lower
    }

    /// The halves of a number.
    #[tactic(auto, using(crate::proofs::HalfNumbers::split_laws))]
    pub(crate) fn split(value: u128) -> Halves
        ensures { result ≡ value }
    {
        Halves {
            upper: (value >> 64) as u64,
            lower: (value & 0xffff_ffff_ffff_ffff) as u64,
        }
    }

    /// The number as one.
    pub(crate) fn join(self) -> u128
        ensures { result ≡ self }
    {
        (u128::from(self.upper) << 64) + u128::from(self.lower)
    }

    /// The sum, without what carries out of the upper half.
    pub(crate) fn wrapping_add(self, other: Halves) -> Halves
        ensures { result ≡ (self + other) % 2 ^ 128 }
    {
        let (lower, carry) = self.lower.carrying_add(other.lower, false);
        let (upper, _) = self.upper.carrying_add(other.upper, carry);
        Halves { upper, lower }
    }

    /// The difference, without what the upper half borrows.
    pub(crate) fn wrapping_sub(self, other: Halves) -> Halves
        ensures { result ≡ (self + (2 ^ 128 - other)) % 2 ^ 128 }
    {
        let (lower, borrow) = self.lower.borrowing_sub(other.lower, false);
        let (upper, _) = self.upper.borrowing_sub(other.upper, borrow);
        Halves { upper, lower }
    }

    /// Whether it is below the other, by one comparison of both halves.
    pub(crate) fn is_below(self, other: Halves) -> bool
        ensures { IsTrue result ↔ (self < other) }
    {
        self.join() < other.join()
    }

    /// The order of two numbers, and where they are the same, that of their lengths. Both comparisons are made before one
    /// of them is taken, so that a sort needs no branch.
    #[tactic(auto, using(crate::proofs::OrderLaws::key_laws))]
    pub(crate) fn order(self, len: u8, other: Halves, other_len: u8) -> Ordering
        ensures { result ≡ ordering_then (nat_cmp self other) (nat_cmp len other_len) }
    {
        let rest = Halves::new(self.lower, u64::from(len)).join();
        let other_rest = Halves::new(other.lower, u64::from(other_len)).join();
        let of_rest = rest.cmp(&other_rest);
        let of_upper = self.upper.cmp(&other.upper);
        let is_tie = self.upper == other.upper;
        if is_tie { of_rest } else { of_upper }
    }

    /// The first `len` bits, and from there on those of the other.
    pub(crate) fn with_host_part(self, other: Halves, len: u8) -> Halves
        requires { len ≤ 128 }
        ensures { let count = 2 ^ (128 - len) in result ≡ self / count * count + other % count }
    {
        let lower_len = len.saturating_sub(64);
        Halves {
            upper: half::with_host_part(self.upper, other.upper, len),
            lower: half::with_host_part(self.lower, other.lower, lower_len),
        }
    }

    /// The number of the bits from `len` on.
    pub(crate) fn host_part(self, len: u8) -> Halves
        requires { len ≤ 128 }
        ensures { result ≡ self % 2 ^ (128 - len) }
    {
        Halves {
            upper: half::host_part(self.upper, len),
            lower: half::host_part(self.lower, len.saturating_sub(64)),
        }
    }

    /// How much greater the number of the bits from `len` on can be.
    pub(crate) fn host_room(self, len: u8) -> Halves
        requires { len ≤ 128 }
        ensures { result ≡ 2 ^ (128 - len) - 1 - self % 2 ^ (128 - len) }
    {
        Halves {
            upper: half::host_room(self.upper, len),
            lower: half::host_room(self.lower, len.saturating_sub(64)),
        }
    }

    /// The first number of the network: the bits from `len` on are zero.
    #[tactic(auto, using(crate::proofs::HalfNumbers::halves_step_laws))]
    pub(crate) fn first_number(self, len: u8) -> Halves
        requires { len ≤ 128 }
        ensures { result ≡ self / 2 ^ (128 - len) * 2 ^ (128 - len) }
    {
        self.with_host_part(Halves::new(0, 0), len)
    }

    /// The last number of the network: the bits from `len` on are one.
    #[tactic(auto, using(crate::proofs::HalfNumbers::halves_last_laws))]
    pub(crate) fn last_number(self, len: u8) -> Halves
        requires { len ≤ 128 }
        ensures { result ≡ self / 2 ^ (128 - len) * 2 ^ (128 - len) + (2 ^ (128 - len) - 1) }
    {
        Halves {
            upper: half::last_number(self.upper, len),
            lower: half::last_number(self.lower, len.saturating_sub(64)),
        }
    }

    /// The mask of the network: as many ones as `len` says, then zeros.
    #[tactic(auto, using(crate::proofs::HalfNumbers::halves_step_laws))]
    pub(crate) fn network_mask(len: u8) -> Halves
        requires { len ≤ 128 }
        ensures { result ≡ 2 ^ 128 - 1 - (2 ^ (128 - len) - 1) }
    {
        Halves::new(u64::MAX, u64::MAX).first_number(len)
    }

    /// Whether all bits are zero.
    pub(crate) fn is_zero(self) -> bool
        ensures { result ≡ (self == 0) }
    {
        self.upper == 0 && self.lower == 0
    }

    /// The number `step` further in its network, and whether that wrapped.
    #[tactic(auto, using(crate::proofs::HalfNumbers::halves_step_laws))]
    pub(crate) fn step_up(self, len: u8, step: u128) -> (Halves, bool)
        requires { len ≤ 128 }
        ensures value { let count = 2 ^ (128 - len) in
            result.0 ≡ self / count * count + (self % count + step) % count }
        ensures wraps { IsTrue result.1 ↔ (2 ^ (128 - len) ≤ self % 2 ^ (128 - len) + step) }
    {
        let step = Halves::split(step);
        let wraps = self.host_room(len).is_below(step);
        (self.with_host_part(self.wrapping_add(step), len), wraps)
    }

    /// The number `step` before in its network, and whether that wrapped.
    #[tactic(auto, using(crate::proofs::HalfNumbers::halves_step_laws))]
    pub(crate) fn step_down(self, len: u8, step: u128) -> (Halves, bool)
        requires { len ≤ 128 }
        ensures value { let count = 2 ^ (128 - len) in
            result.0 ≡ self / count * count + (self % count + (count - step % count)) % count }
        ensures wraps { IsTrue result.1 ↔ (self % 2 ^ (128 - len) < step) }
    {
        let step = Halves::split(step);
        let wraps = self.host_part(len).is_below(step);
        (self.with_host_part(self.wrapping_sub(step), len), wraps)
    }

    /// How many of the first bits of both are the same.
    pub(crate) fn shared_len(self, other: Halves) -> u8
        ensures fits { result ≤ 128 }
        ensures shared { (k : ℕ) → k ≤ 128 → (k ≤ result) ↔ (self / 2 ^ (128 - k) ≡ other / 2 ^ (128 - k)) }
    {
        if self.upper == other.upper {
            64 + half::shared_len(self.lower, other.lower)
        } else {
            half::shared_len(self.upper, other.upper)
        }
    }

    /// Whether both have the same first `len` bits.
    pub(crate) fn same_first_bits(self, other: Halves, len: u8) -> bool
        requires { len ≤ 128 }
        ensures { IsTrue result ↔ (self / 2 ^ (128 - len) ≡ other / 2 ^ (128 - len)) }
    {
        self.shared_len(other) >= len
    }

    /// Bit `i`, the most significant first.
    pub(crate) fn bit(self, i: u8) -> bool
        requires { i < 128 }
        ensures { result ≡ (bit_at self (127 - i) == 1) }
    {
        let half = if i < 64 { self.upper } else { self.lower };
        half::bit(half, i % 64)
    }

    /// The number whose bit `i` is `b`, the most significant first.
    pub(crate) fn with_bit(self, i: u8, b: bool) -> Halves
        requires { i < 128 }
        ensures set { bit_at result (127 - i) ≡ cond b 1 0 }
        ensures kept { (k : ℕ) → k < 128 → k ≢ 127 - i → bit_at result k ≡ bit_at self k }
    {
        if i < 64 {
            Halves::new(half::with_bit(self.upper, i, b), self.lower)
        } else {
            Halves::new(self.upper, half::with_bit(self.lower, i - 64, b))
        }
    }

    /// The number with bit `i` inverted, the most significant first.
    #[tactic(auto, using(crate::proofs::HalfNumbers::place_laws))]
    pub(crate) fn with_flipped_bit(self, i: u8) -> Halves
        requires { i < 128 }
        ensures { result ≡ bit_xor self (2 ^ (127 - i)) }
    {
        Halves::split(self.join() ^ ((1 << 127) >> i))
    }
}
