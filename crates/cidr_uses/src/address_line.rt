//! A line with an address, printed where the caller wants it.
ghost use Rattle.std.specs.Prelude.{◌≡◌, [], ◌∷◌, ◌++◌, IsOk};
ghost use Rattle.cidr.specs.texts.PrintedAddress.{ipv4_text};

use arrayvec::ArrayString;
use cidr::Ipv4Addr;
use std::fmt;

/// Has the address and a line feed in place of what the line had. There is room for each address, so that it never fails.
pub fn put_line(address: &Ipv4Addr, line: &mut ArrayString<16>) -> fmt::Result
    ensures line { line.new.bytes ≡ ipv4_text address.now ++ 10 ∷ [] }
    ensures done { IsOk result }
{
    line.clear();
    address.write_to(line)?;
    line.push('\n');
    Ok(())
}
