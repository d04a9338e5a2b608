//! Addresses by their numbers.
ghost use Rattle.std.specs.Prelude.{◌≡◌, ◌≢◌, ℕ, ◌+◌, ◌-◌, ◌*◌, ◌/◌, ◌%◌, ◌^◌, ◌<◌, ◌≤◌};
ghost use Rattle.cidr_lookup.specs.Tables.{ipv4_steps};

/// The number of an address, as it lies in an array: a `u32` of IPv4 or [`Ipv6Halves`](crate::Ipv6Halves) of IPv6, and the bytes
/// of these, as a file has them.
///
/// The nodes of a look-up table divide by six bits. So that all bits but the first are parts of six, a number has some
/// zeros behind its bits there.
pub trait Address: Copy {
    /// The number.
    ghost value: { Self → ℕ };

    /// How many bits an address has.
    ghost width: { ℕ };

    /// How many zeros are behind them.
    ghost padding: { ℕ };

    /// How many steps of six bits the table of so many networks has.
    ghost steps: { ℕ → ℕ };

    /// The number.
    fn number(self) -> u128
        ensures value { result ≡ value self }
        ensures fits { result < 2 ^ width };

    /// The address with a number. The caller has to prove that it is below 2^32 in IPv4, or below 2^128 in IPv6, as
    /// each `u128` is.
    fn of(number: u128) -> Self
        requires { number < 2 ^ width }
        ensures { value result ≡ number };

    /// How many bits an address has: 32 or 128.
    fn width() -> u32
        ensures value { result ≡ width }
        ensures fits { result ≤ 128 };

    /// How many zeros are behind them: 4 in IPv4, 2 in IPv6.
    fn padding() -> u32
        ensures value { result ≡ padding }
        ensures few { result ≤ 6 };

    /// How many bits it has with its zeros: 36 or 130, so that the first ones, before steps of six bits, are never just 32.
    fn padded_width() -> u32
        ensures value { result ≡ width + padding }
        ensures long { 32 < result }
        ensures fits { result ≤ 130 }
        ensures parts { result % 6 ≢ 2 };

    /// How many steps of six bits the table of so many networks has: those that are best, of at most 2^20 entries.
    fn steps_for(networks: usize) -> u32
        ensures own { result ≡ steps networks }
        ensures some { 6 * result < width + padding }
        ensures few { width + padding ≤ 6 * result + 20 };

    /// The number of the bits before the last `shift`, of which there are at most 32.
    fn block(self, shift: u32) -> usize
        requires some { shift < width + padding }
        requires few { width + padding ≤ shift + 32 }
        ensures { result ≡ value self * 2 ^ padding / 2 ^ shift };

    /// The address that has the bits behind the first ones, of which there are 1 to 31, and zeros behind them.
    fn behind(self, count: u32) -> Self
        requires some { 0 < count }
        requires few { count < 32 }
        ensures { value result ≡ value self * 2 ^ count % 2 ^ width };

    /// The number of the first six bits.
    fn part(self) -> u32
        ensures value { result ≡ value self / 2 ^ (width - 6) }
        ensures fits { result < 64 }
        ensures wide { 6 ≤ width };

    /// The number of the 32 bits before the last 82, by which lists tell addresses: the bits 17 to 48 in IPv6, and 0 in IPv4.
    fn list_word(self) -> u32
        ensures { result ≡ value self * 2 ^ padding / 2 ^ 82 % 2 ^ 32 };
}

impl Address for u32 {
    ghost value = { λ number. number };

    ghost width = { 32 };

    ghost padding = { 4 };

    ghost steps = { ipv4_steps };

    #[inline(always)]
    fn number(self) -> u128 {
        u128::from(self)
    }

    #[inline(always)]
    fn of(number: u128) -> u32 {
        number as u32
    }

    #[inline(always)]
    fn width() -> u32 {
        32
    }

    #[inline(always)]
    fn padding() -> u32 {
        4
    }

    #[inline(always)]
    fn padded_width() -> u32 {
        36
    }

    fn steps_for(networks: usize) -> u32 {
        if networks < 64 {
            return 5;
        }
        if networks < 1000 { 4 } else { 3 }
    }

    #[inline(always)]
    fn block(self, shift: u32) -> usize {
        (self >> (shift - 4)) as usize
    }

    #[inline(always)]
    fn behind(self, count: u32) -> u32 {
        self << count
    }

    #[inline(always)]
    fn part(self) -> u32 {
        self >> 26
    }

    #[inline(always)]
    fn list_word(self) -> u32 {
        0
    }
}
