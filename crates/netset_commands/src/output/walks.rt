//! Networks that are written one after the other, of which only the last is held: what stands behind a network depends on
//! whether another one follows.
ghost use Rattle.std.specs.Prelude.{◌++◌};
ghost use Rattle.cidr.specs.either.IpNetwork.{network_family, network_prefix};
ghost use Rattle.cidr_io.specs.Collecting.{Collects};
ghost use Rattle.cidr_lists.specs.Formats.{before_next, either_by, last_row, layout_in, row};
ghost use Rattle.netset_commands.specs.Free.{pair_of};

use cidr::IpCidr;
use cidr_io::block::Block;
use cidr_io::sink::{OutputFailed, Sink};
use cidr_lists::formats::{Layout, network_text};

/// Appends a network to a block, and what stands behind it in its line.
fn push_network_line<S: Sink>(
    block: &mut Block,
    out: &mut S,
    layout: Layout<'_>,
    network: &IpCidr,
    end: &str,
) -> Result<(), OutputFailed>
    ensures { Collects (S.state out.old) (S.state out.new) block.old block.new
        (row either_by (layout_in layout.entry) (network_family network.now, network_prefix network.now) ++ end.now) result }
{
    let text = network_text(network, layout.notation);
    block.push_line(
        out,
        &[
            layout.before.as_bytes(),
            text.as_str().as_bytes(),
            layout.behind.as_bytes(),
            end.as_bytes(),
        ],
    )
}

/// Appends what stands in front of the next network: the one before it, and what is between the two, or the head.
pub fn push_next<S: Sink>(
    block: &mut Block,
    out: &mut S,
    layout: Layout<'_>,
    last: Option<IpCidr>,
) -> Result<(), OutputFailed>
    ensures { Collects (S.state out.old) (S.state out.new) block.old block.new (before_next (layout_in layout.entry) (pair_of last)) result }
{
    match last {
        None => block.push(out, layout.head.as_bytes()),
        Some(network) => push_network_line(block, out, layout, &network, layout.between),
    }
}

/// Appends the last network and the tail, or what stands for no network.
pub fn push_last<S: Sink>(
    block: &mut Block,
    out: &mut S,
    layout: Layout<'_>,
    last: Option<IpCidr>,
) -> Result<(), OutputFailed>
    ensures { Collects (S.state out.old) (S.state out.new) block.old block.new (last_row (layout_in layout.entry) (pair_of last)) result }
{
    match last {
        None => block.push(out, layout.none.as_bytes()),
        Some(network) => push_network_line(block, out, layout, &network, layout.tail),
    }
}
