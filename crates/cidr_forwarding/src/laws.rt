//! What holds of each table: after a call, a caller's proof has it.
ghost use Rattle.std.specs.Prelude.{◌≡◌};
ghost use Rattle.std.specs.List.Sorted.{IsStrictlySortedBy};
ghost use Rattle.std.specs.Map.{keys_of};
ghost use Rattle.cidr_forwarding.specs.Plans.{IsNode};

use cidr::NetworkBits;
use cidr_table::laws::keys::has_at_most_129_bits;

/// The bits of the keys ascend, and none has more than 129: the rows are those of the network of no bits.
pub(crate) fn keys_ascend_within_129_bits<C: NetworkBits + Copy, V: Copy>(rows: &[(C, V)])
    requires { IsStrictlySortedBy C.cmp (keys_of rows.now) }
    ensures { IsNode C.bits 0 rows.now }
{
    for row in rows {
        has_at_most_129_bits(&row.0);
    }
}
