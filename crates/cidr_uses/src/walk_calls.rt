//! From a string to any calls at both ends of the walk of the network that it represents.
ghost use Rattle.std.specs.Prelude.{◌≡◌, length, map, option_map, MatchResult};
ghost use Rattle.cidr.specs.either.IpText.{IsIpRefused};
ghost use Rattle.cidr.specs.either.IpAddress.{address_family, plain_bits};
ghost use Rattle.cidr.specs.model.Views.{in_family};
ghost use Rattle.cidr_uses.specs.WalkCalls.{DrivesString};

use crate::headline::walk;
use cidr::errors::NetworkParseError;
use cidr::laws::walks;
use cidr::{End, IpAddr, IpCidr};

/// Parses a network of either family and takes its addresses from the front and the back, as `ends` says. Whatever
/// these are, the answers are addresses of the network, none is there twice, and after as many calls as there are
/// addresses each is there.
pub fn drive_string(
    s: &str,
    ends: &[End],
    answers: &mut [Option<IpAddr>],
) -> Result<(), NetworkParseError>
    requires { length answers.old ≡ length ends.now }
    ensures { MatchResult result
        (λ _. DrivesString s.now ends.now (map (option_map (in_family address_family plain_bits)) answers.new))
        (IsIpRefused s.now) }
{
    let network = match s.parse::<IpCidr>() {
        Ok(network) => network,
        Err(e) => return Err(e),
    };
    walks::calls_return_only_items();
    walk(&network, ends, answers);
    Ok(())
}
