//! Laws of the calls, each as the contract of a function that changes nothing. After a call, a caller's proof has it.
ghost use Rattle.std.specs.Prelude.{◌≡◌, ◌≤◌, ℕ, Bool, List, length};
ghost use Rattle.cidr.specs.model.Network.{width_of};
ghost use Rattle.cidr.specs.declared.family.Family.{Family};
ghost use Rattle.cidr_ext.specs.texts.Reverse.{EndsAtLabel, IsReverseAddressName, IsReverseName, reverse_text};
ghost use Rattle.cidr_ext.specs.model.Subnets.{AscendEachOnce, subnets_of};

use crate::address::AddressExt;
use cidr::Cidr;

/// The printed name of a network is its name, so that `from_reverse_name` of it gives the network.
pub fn printed_name_is_read()
    ensures { (family : Family) (network : List Bool) → length network ≤ width_of family →
        EndsAtLabel family network → IsReverseName family (reverse_text family network) network }
{}

/// The printed name of an address is its name, so that `from_reverse_name` of it gives the address.
pub fn printed_address_name_is_read()
    ensures { (family : Family) (address : List Bool) → length address ≡ width_of family →
        IsReverseAddressName family (reverse_text family address) address }
{}

/// The networks of one length inside a network, as `subnets` gives them, ascend, and so come once each.
pub fn subnets_ascend()
    ensures { (family : Family) (network : List Bool) (n : ℕ) → AscendEachOnce (subnets_of family network n) }
{}

/// The prefix length of a network is at most the width.
pub(crate) fn length_is_within_the_width<C: Cidr>(network: &C)
    ensures { length (C.prefix network.now) ≤ width_of (C.family_of network.now) }
{
    network.network_length();
}

/// An address has as many bits as its family says.
pub(crate) fn address_has_its_width<A: AddressExt>(address: A)
    ensures { length (A.bits address) ≡ width_of (A.family_of address) }
{
    address.to_number();
}
