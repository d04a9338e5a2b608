//! Look-ups in tables of words, that were built or checked.
ghost use Rattle.std.specs.Prelude.{◌≡◌, ◌+◌, ◌*◌, ◌^◌, IfErr, IfOk};
ghost use Rattle.cidr.specs.model.Bits.{bits};
ghost use Rattle.cidr_table.specs.model.Prefixes.{IsLongestMatch};
ghost use Rattle.cidr_lookup.specs.Keys.{prefix_bits, key_networks};

use cidr::{Ipv4Addr, Ipv6Addr};
use cidr_lookup::{Address, Ipv6Halves, Key, TableError, WordsFault, build, check, find};
use std::alloc::Global;

/// The index of the longest of the keys that have an address, by a table that it builds.
pub fn longest_match(
    alloc: Global,
    keys: &[Key<u32>],
    address: Ipv4Addr,
) -> Result<Option<usize>, TableError>
    ensures { IfOk result (IsLongestMatch (prefix_bits 32) address (key_networks (λ number. number) keys.now)) }
{
    let table = build(alloc, keys)?;
    let first = table.first.as_slice();
    let words = table.words.as_slice();
    Ok(find(&first, &words, table.steps, address.to_bits()))
}

/// The same of IPv6.
pub fn longest_wide_match(
    alloc: Global,
    keys: &[Key<Ipv6Halves>],
    address: Ipv6Addr,
) -> Result<Option<usize>, TableError>
    ensures { IfOk result (IsLongestMatch (prefix_bits 128) address (key_networks (λ halves. halves.high * 2 ^ 64 + halves.low) keys.now)) }
{
    let table = build(alloc, keys)?;
    let first = table.first.as_slice();
    let words = table.words.as_slice();
    let number = Ipv6Halves::of(address.to_bits());
    Ok(find(&first, &words, table.steps, number))
}

/// The same of IPv4 by words that are checked.
pub fn checked_match(
    alloc: Global,
    keys: &[Key<u32>],
    first: &[u32],
    words: &[u32],
    steps: u32,
    address: Ipv4Addr,
) -> Result<Option<usize>, WordsFault>
    ensures { IfOk result (IsLongestMatch (prefix_bits 32) address (key_networks (λ number. number) keys.now)) }
{
    check(alloc, keys, &first, &words, steps)?;
    Ok(find(&first, &words, steps, address.to_bits()))
}

/// What `check` says of a table that was built: it accepts it, or an allocation failed.
pub fn built_is_accepted(
    alloc: Global,
    keys: &[Key<u32>],
) -> Result<Result<(), WordsFault>, TableError>
    ensures { IfOk result (λ checked. IfErr checked (λ fault. fault ≡ WordsFault.Keys TableError.NoMemory)) }
{
    let table = build(alloc, keys)?;
    let first = table.first.as_slice();
    let words = table.words.as_slice();
    Ok(check(alloc, keys, &first, &words, table.steps))
}
