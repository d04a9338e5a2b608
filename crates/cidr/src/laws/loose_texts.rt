//! What holds of loose and short IPv4 strings, each as the contract of a function that does nothing.
ghost use Rattle.std.specs.Prelude.{◌≡◌, ◌-◌, ◌*◌, ◌≤◌, ◌++◌, ℕ, Bool, List, length, replicate};
ghost use Rattle.cidr.specs.model.Address.{octet_bits};
ghost use Rattle.cidr.specs.model.Network.{first_of};
ghost use Rattle.cidr.specs.texts.Ipv4Text.{IsIpv4Text};
ghost use Rattle.cidr.specs.texts.LooseText.{IsLooseText, IsLooseIpText};
ghost use Rattle.cidr.specs.texts.ShortText.{IsShortText, IsShortIpText};
ghost use Rattle.cidr.specs.either.IpAddress.{IsIpText, SpellsOne};
ghost use Rattle.cidr.specs.either.IpNetwork.{lone_network};
ghost use Rattle.cidr.specs.declared.addr.ip.IpAddr.{IpAddr};

/// A loose string is parsed as one address at most, and so is one of either family.
pub fn loose_text_spells_one()
    ensures ipv4 { SpellsOne IsLooseText }
    ensures ip { SpellsOne IsLooseIpText }
{}

/// A strict string is a loose string of the same address.
pub fn strict_text_is_loose()
    ensures ipv4 { (text : List ℕ) (a : List Bool) → IsIpv4Text text a → IsLooseText text a }
    ensures ip { (text : List ℕ) (a : IpAddr) → IsIpText text a → IsLooseIpText text a }
{}

/// A short string is parsed as one network at most, and so is one of either family.
pub fn short_text_spells_one()
    ensures ipv4 { SpellsOne IsShortText }
    ensures ip { SpellsOne IsShortIpText }
{}

/// A strict string is a short string of the network that has only its address.
pub fn strict_text_is_short()
    ensures ipv4 { (text : List ℕ) (a : List Bool) → IsIpv4Text text a → IsShortText text a }
    ensures ip { (text : List ℕ) (a : IpAddr) → IsIpText text a → IsShortIpText text (lone_network a) }
{}

/// The network of up to four octets has eight bits for each, and its first address has zeros for the missing ones.
pub fn network_of_octets()
    ensures len { (octets : List ℕ) → length (octet_bits octets) ≡ 8 * length octets }
    ensures first { (octets : List ℕ) → length octets ≤ 4 →
        first_of 32 (octet_bits octets) ≡ octet_bits (octets ++ replicate (4 - length octets) 0) }
{}
