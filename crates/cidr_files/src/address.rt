//! The families of addresses, as files have them.
ghost use Rattle.std.specs.Prelude.{◌≡◌, ℕ, ◌++◌, ◌^◌, ◌<◌, List, length, map, OnOk};
ghost use Rattle.cidr_files.specs.Layout.{wide_words, words};
ghost use Rattle.cidr_files.specs.Spelling.{length-wide_bytes, length-word_bytes, spells_wide, spells_words, wide_bytes, word_bytes};
ghost use Rattle.cidr_files.specs.Written.{AreBelow, spelled};

use cidr_lookup::Address;
use std::alloc::AllocError;

/// The bytes of an IPv4 address in a file: its number, the least significant byte first, which is not network byte
/// order. 192.0.2.1 is `[1, 2, 0, 192]`.
pub type Ipv4Bytes = [u8; 4];

/// The bytes of an IPv6 address in a file: the numbers of its first 64 bits and of its last 64, of each the least
/// significant byte first.
pub type Ipv6Bytes = [[u8; 8]; 2];

/// A family of addresses, as files have them: [`Ipv4Bytes`] or [`Ipv6Bytes`].
pub trait FileAddress: Address {
    /// The numbers that bytes spell.
    ghost numbers: { List ℕ → List ℕ };

    /// The bytes of a number.
    ghost bytes_of: { ℕ → List ℕ };

    /// How many these are.
    ghost size: { ℕ };

    /// The addresses that bytes are, 4 or 16 bytes each, where they lie: nothing is copied. Bytes at the end that are too
    /// few for one are left out.
    fn addresses(bytes: &[u8]) -> &[Self]
        ensures { map Self.value result.now ≡ numbers bytes.now };

    /// Appends the bytes of the address with this number. The caller has to prove that it is below 2^32 in IPv4, or
    /// below 2^128 in IPv6, as each `u128` is. The error is that an allocation fails; what is behind the old bytes then
    /// is not told.
    fn put(number: u128, out: &mut Vec<u8>) -> Result<(), AllocError>
        requires { number < 2 ^ Self.width }
        ensures { OnOk result (out.new.items ≡ out.old.items ++ bytes_of number) };

    /// Each number has as many.
    ghost long: { (number : ℕ) → length (bytes_of number) ≡ size };

    /// The bytes of numbers spell these.
    ghost spells: { (ns : List ℕ) → AreBelow (2 ^ Self.width) ns → numbers (spelled bytes_of ns) ≡ ns };
}

impl FileAddress for [u8; 4] {
    ghost numbers = { words };

    ghost bytes_of = { word_bytes };

    ghost size = { 4 };

    #[inline(always)]
    fn addresses(bytes: &[u8]) -> &[[u8; 4]] {
        let (addresses, _) = bytes.as_chunks::<4>();
        addresses
    }

    fn put(number: u128, out: &mut Vec<u8>) -> Result<(), AllocError> {
        out.extend_from_slice(&(number as u32).to_le_bytes())?;
        Ok(())
    }

    ghost long = { length-word_bytes };

    ghost spells = { spells_words };
}

impl FileAddress for [[u8; 8]; 2] {
    ghost numbers = { wide_words };

    ghost bytes_of = { wide_bytes };

    ghost size = { 16 };

    #[inline(always)]
    fn addresses(bytes: &[u8]) -> &[[[u8; 8]; 2]] {
        let (halves, _) = bytes.as_chunks::<8>();
        let (addresses, _) = halves.as_chunks::<2>();
        addresses
    }

    fn put(number: u128, out: &mut Vec<u8>) -> Result<(), AllocError> {
        out.extend_from_slice(&((number >> 64) as u64).to_le_bytes())?;
        out.extend_from_slice(&((number % (1 << 64)) as u64).to_le_bytes())?;
        Ok(())
    }

    ghost long = { length-wide_bytes };

    ghost spells = { spells_wide };
}
