//! Writing sets as ranges of addresses.
ghost use Rattle.std.specs.Prelude.{◌≡◌};
ghost use Rattle.std.specs.List.{flat_map};
ghost use Rattle.cidr.specs.texts.PrintedAddress.{address_text};
ghost use Rattle.cidr_io.specs.Writing.{Writes};
ghost use Rattle.cidr_io.specs.Collecting.{Collects};
ghost use Rattle.netset_commands.specs.Sets.{Prints};
ghost use Rattle.cidr_lists.specs.Sets.{networks_of, range_line};
ghost use Rattle.cidr_lists.specs.declared.sets.Form.TheVariants.{Ranges as AsRanges};

use cidr::FamilyCidr;
use cidr_io::block::Block;
use cidr_io::sink::{OutputFailed, Sink};
use cidr_io::writing::flush;
use cidr_lists::sets::Sets;
use cidr_sets::{AddressRange, Addressed, Ranges};

/// Appends a range to a block, as a line.
fn push_range<C: FamilyCidr, S: Sink>(
    block: &mut Block,
    out: &mut S,
    range: AddressRange<C::Address>,
) -> Result<(), OutputFailed>
    ensures { Collects (S.state out.old) (S.state out.new) block.old block.new
        (range_line (address_text C.FAMILY) (C.Address.bits range.first, C.Address.bits range.last)) result }
{
    let first = C::address_text(&range.first);
    if C::to_number(range.first) == C::to_number(range.last) {
        return block.push_line(out, &[first.as_str().as_bytes(), b"\n"]);
    }
    let last = C::address_text(&range.last);
    block.push_line(
        out,
        &[
            first.as_str().as_bytes(),
            b"-",
            last.as_str().as_bytes(),
            b"\n",
        ],
    )
}

/// Writes ranges in blocks, one a line.
fn write_each<C: FamilyCidr + Addressed<Address = <C as FamilyCidr>::Address>, S: Sink>(
    out: &mut S,
    mut ranges: Ranges<'_, C>,
) -> Result<(), OutputFailed>
    requires { (address : C.Address) → C.address_bits address ≡ C.Address.bits address }
    ensures { Writes (S.state out.old) (S.state out.new) (flat_map (range_line (address_text C.FAMILY)) ranges.entry) result }
{
    let mut block = Block::new();
    while let Some(range) = ranges.next() {
        push_range::<C, S>(&mut block, out, range)?;
    }
    block.write(out)
}

/// Writes the longest ranges of the addresses, one a line. An output that has failed before gets nothing.
pub fn write_ranges<S: Sink>(out: &mut S, sets: &Sets) -> Result<(), OutputFailed>
    ensures { Prints AsRanges (S.state out.old) (S.state out.new) (networks_of sets.now) result }
{
    let (v4, v6) = (sets.v4.ranges(), sets.v6.ranges());
    if out.failed() {
        return Err(OutputFailed);
    }
    write_each(out, v4)?;
    write_each(out, v6)?;
    flush(out)
}
