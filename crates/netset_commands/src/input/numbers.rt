//! The values of tables by numbers. The calls of `cidr_forwarding` take values of which `==` tells equality, as it does for
//! numbers: equal bytes have the same number here, and others another one.
ghost use Rattle.std.specs.Prelude.{◌≡◌, ◌++◌, List, ℕ, Contains, IfOk, OnOk, map};
ghost use Rattle.cidr.specs.model.Network.{width_of};
ghost use Rattle.cidr_forwarding.specs.Forwarding.{AreNetworksOf};
ghost use Rattle.netset_commands.specs.Numbers.{AreAscending, HaveValues, number_in, numbered, row_values, slices, table_values, value_in};
ghost use Rattle.cidr_lists.specs.Tables.{resolved};
ghost use Rattle.netset_commands.specs.Rows.{kept};
ghost use Rattle.std.specs.Cmp.Lexicographic.{slice_cmp};
ghost use Rattle.std.specs.Ordering.{is_lt, nat_cmp};

use crate::input::tables::PlainTable;
use cidr::FamilyCidr;
use cidr_lists::rows::{Span, value_at_span};
use cidr_table::LpmTable;
use std::alloc::{AllocError, Global};
use std::marker::Model;

/// The values of tables, ascending by their bytes, some of them perhaps equal.
#[derive(Drop)]
pub struct Numbers<'a> {
    values: Vec<&'a [u8]>,
}

impl<'a> Model for Numbers<'a> {
    ghost use Rattle.std.specs.Prelude.{List, ℕ};
    ghost use Rattle.netset_commands.specs.Numbers.{AreAscending, slices};

    ghost Value = { List (List ℕ) };

    ghost view = { λ numbers. slices numbers.values.items };

    ghost invariant = { λ numbers. AreAscending (slices numbers.values.items) };
}

/// Whether a value is less than another one, by their bytes.
fn is_less(one: &[u8], other: &[u8]) -> bool
    ensures { result ≡ is_lt (slice_cmp nat_cmp one.now other.now) }
{
    one.cmp(other).is_lt()
}

/// Appends the values of rows.
fn push_values<'a, C>(
    values: &mut Vec<&'a [u8]>,
    rows: &[(C, Span)],
    all: &'a [u8],
) -> Result<(), AllocError>
    ensures { OnOk result (slices values.new.items ≡ slices values.old.items ++ row_values (map (resolved all.now) rows.now)) }
{
    for row in rows {
        values.push(value_at_span(all, row.1))?;
    }
    Ok(())
}

/// Appends the values of a table.
fn push_table<'a>(values: &mut Vec<&'a [u8]>, table: &'a PlainTable) -> Result<(), AllocError>
    ensures { OnOk result (slices values.new.items ≡ slices values.old.items ++ table_values (kept table.now)) }
{
    let all = table.values.as_slice();
    push_values(values, table.v4.iter().as_slice(), all)?;
    push_values(values, table.v6.iter().as_slice(), all)
}

impl<'a> Numbers<'a> {
    /// The numbers of these values.
    fn of_values(mut values: Vec<&'a [u8]>) -> Numbers<'a>
        ensures ascending { AreAscending result }
        ensures values { (value : List ℕ) → Contains (slices values.entry.items) value → Contains result value }
    {
        values.sort_unstable();
        Numbers { values }
    }

    /// The numbers of the values of a table. The error is that there is no memory.
    pub fn of_table(alloc: Global, table: &'a PlainTable) -> Result<Numbers<'a>, AllocError>
        ensures ascending { IfOk result AreAscending }
        ensures values { IfOk result (λ values. HaveValues values (kept table.now)) }
    {
        let mut values = Vec::new(alloc);
        push_table(&mut values, table)?;
        Ok(Numbers::of_values(values))
    }

    /// The numbers of the values of two tables, which are the same in both. The error is that there is no memory.
    pub fn of_tables(
        alloc: Global,
        one: &'a PlainTable,
        other: &'a PlainTable,
    ) -> Result<Numbers<'a>, AllocError>
        ensures ascending { IfOk result AreAscending }
        ensures values { IfOk result (λ values. HaveValues values (kept one.now)) }
        ensures others { IfOk result (λ values. HaveValues values (kept other.now)) }
    {
        let mut values = Vec::new(alloc);
        push_table(&mut values, one)?;
        push_table(&mut values, other)?;
        Ok(Numbers::of_values(values))
    }

    /// The number of a value.
    fn number(&self, value: &[u8]) -> usize
        ensures { result ≡ number_in self.now value.now }
    {
        self.values.as_slice().partition_point(
            |other|
                ensures { result ≡ is_lt (slice_cmp nat_cmp other.now.now value.entry.now) }
            { is_less(other, value) },
        )
    }

    /// The value of a number.
    pub fn value(&self, number: usize) -> &'a [u8]
        ensures { result.now ≡ value_in self.now number }
    {
        match self.values.get(number) {
            Some(value) => value,
            None => &[],
        }
    }

    /// The table of the same networks, each with the number of its value, which stands among the bytes of all.
    pub fn table<C: FamilyCidr>(
        &self,
        alloc: Global,
        table: &LpmTable<C, Span>,
        all: &[u8],
    ) -> Result<LpmTable<C, usize>, AllocError>
        ensures rows { IfOk result (λ made. made.rows ≡ numbered self.now (map (resolved all.now) table.now.rows)) }
        ensures fit { IfOk result (λ made. AreNetworksOf C.bits (width_of C.FAMILY) made.rows) }
    {
        let mut rows = Vec::with_capacity(alloc, table.len())?;
        for row in table.iter().as_slice() {
            // the call tells the proof that the prefix length fits
            row.0.network_length();
            let number = self.number(value_at_span(all, row.1));
            rows.push((row.0, number))?;
        }
        Ok(LpmTable::from_rows(rows))
    }
}
