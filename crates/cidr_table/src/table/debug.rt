//! How a table is printed.
ghost use Rattle.std.specs.Prelude.{Some};
ghost use Rattle.std.specs.Fmt.{DisplaysOnOk, ◌++?◌};
ghost use Rattle.cidr_table.specs.model.Printing.{debug_map, debug_row};

use crate::table::LpmTable;
use cidr::NetworkBits;
use std::fmt;

/// A table is printed as a map: `{10.0.0.0/8: 1, 10.1.0.0/16: 2}`, and with `{:#?}` each row on lines of its own.
impl<C: NetworkBits + Copy + fmt::Debug, V: fmt::Debug> fmt::Debug for LpmTable<C, V> {
    ghost debug_output = { λ table. debug_map C.debug_output V.debug_output table.rows };

    fn fmt<W: fmt::Write>(&self, f: &mut fmt::Formatter<W>) -> fmt::Result {
        if f.alternate() {
            write_lines(f, self.ascending())
        } else {
            write_map(f, self.ascending())
        }
    }
}

/// The rows as a map, each on lines of its own.
fn write_lines<C: fmt::Debug, V: fmt::Debug, W: fmt::Write>(
    f: &mut fmt::Formatter<W>,
    rows: &[(C, V)],
) -> fmt::Result {
    let mut map = f.debug_map();
    for row in rows {
        map.entry(&row.0, &row.1);
    }
    map.finish()
}

/// The rows as a map, on one line.
fn write_map<C: fmt::Debug, V: fmt::Debug, W: fmt::Write>(
    f: &mut fmt::Formatter<W>,
    rows: &[(C, V)],
) -> fmt::Result
    ensures { DisplaysOnOk W.write_str_gives f.old result
        (debug_map C.debug_output V.debug_output rows.now) f.new }
{
    f.write_str("{")?;
    let mut lead = "";
    for row in rows {
        write_row(f, lead, row)?;
        lead = ", ";
    }
    f.write_str("}")
}

/// A key with its value, behind what parts it from the row before.
fn write_row<C: fmt::Debug, V: fmt::Debug, W: fmt::Write>(
    f: &mut fmt::Formatter<W>,
    lead: &str,
    row: &(C, V),
) -> fmt::Result
    ensures { DisplaysOnOk W.write_str_gives f.old result
        (Some lead.now ++? debug_row C.debug_output V.debug_output row.now) f.new }
{
    f.write_str(lead)?;
    row.0.fmt(f)?;
    f.write_str(": ")?;
    row.1.fmt(f)
}
