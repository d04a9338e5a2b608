//! The line of a network and its value.
ghost use Rattle.std.specs.Prelude.{◌++◌};
ghost use Rattle.cidr_io.specs.Collecting.{Collects};
ghost use Rattle.netset_commands.specs.Rows.{row_text};

use arrayvec::ArrayString;
use cidr_io::block::Block;
use cidr_io::sink::{OutputFailed, Sink};

/// Appends the line of a network and its value to a block, with a space in front of the value if it is not empty; in front of
/// it stand two other strings.
pub fn push_row<'x, S: Sink>(
    block: &mut Block,
    out: &mut S,
    front: &'x [u8],
    joint: &'x [u8],
    network: ArrayString<43>,
    value: &'x [u8],
) -> Result<(), OutputFailed>
    ensures { Collects (S.state out.old) (S.state out.new) block.old block.new
        (front.now ++ (joint.now ++ row_text network.bytes value.now)) result }
{
    let network = network.as_str().as_bytes();
    if value.is_empty() {
        return block.push_line(out, &[front, joint, network, b"\n"]);
    }
    block.push_line(out, &[front, joint, network, b" ", value, b"\n"])
}
