//! How a set is printed.
ghost use Rattle.std.specs.Fmt.{debug_list};

use crate::set::NetworkSet;
use cidr::NetworkBits;
use std::fmt;

/// A set is printed as the list of its networks: `[10.0.0.0/8, 192.0.2.0/24]`.
impl<C: NetworkBits + Copy + fmt::Debug> fmt::Debug for NetworkSet<C> {
    ghost debug_output = { λ networks. debug_list C.debug_output networks };

    fn fmt<W: fmt::Write>(&self, f: &mut fmt::Formatter<W>) -> fmt::Result {
        self.as_slice().fmt(f)
    }
}
