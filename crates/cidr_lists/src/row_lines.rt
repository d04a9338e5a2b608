//! Rows of prefix lists as lines.
ghost use Rattle.std.specs.Prelude.{◌≡◌, ◌∷◌, [], ◌++◌, OnOk, decimal};
ghost use Rattle.cidr_lists.specs.PrefixLists.{family_word};
ghost use Rattle.cidr_lists.specs.RowLines.{bits_row, le_words, length_words, row_line, row_lines, spaced};
ghost use Rattle.cidr_lists.specs.Rules.{action_text};

use cidr::{Family, FamilyCidr};
use cidr_io::decimal::decimal_text;
use cidr_routes::lists::Row;
use cidr_sets::access::Action;
use std::alloc::AllocError;

/// The word of a family.
fn family_word(family: Family) -> &'static [u8]
    ensures { result.now ≡ family_word family }
{
    match family {
        Family::Ipv4 => b"ip",
        Family::Ipv6 => b"ipv6",
    }
}

/// The word of an action.
fn action_word(action: Action) -> &'static [u8]
    ensures { result.now ≡ action_text action }
{
    match action {
        Action::Permit => b"permit",
        Action::Deny => b"deny",
    }
}

/// Appends a word behind a space.
fn push_word(text: &mut Vec<u8>, word: &[u8]) -> Result<(), AllocError>
    ensures { OnOk result (text.new.items ≡ text.old.items ++ spaced (word.now ∷ [])) }
{
    text.push(b' ')?;
    text.extend_from_slice(word)?;
    Ok(())
}

/// Appends a word and a number, each behind a space.
fn push_number(text: &mut Vec<u8>, word: &[u8], number: u8) -> Result<(), AllocError>
    ensures { OnOk result (text.new.items ≡ text.old.items ++ spaced (word.now ∷ decimal number ∷ [])) }
{
    push_word(text, word)?;
    push_word(text, decimal_text(u128::from(number)).as_str().as_bytes())?;
    Ok(())
}

/// Appends a greatest length, unless it is the one that is meant without `le`.
fn push_le(text: &mut Vec<u8>, without: u8, high: u8) -> Result<(), AllocError>
    ensures { OnOk result (text.new.items ≡ text.old.items ++ spaced (le_words without high)) }
{
    if high == without {
        return Ok(());
    }
    push_number(text, b"le", high)
}

/// Appends the lengths of a row.
fn push_lengths(text: &mut Vec<u8>, len: u8, width: u8, low: u8, high: u8) -> Result<(), AllocError>
    ensures { OnOk result (text.new.items ≡ text.old.items ++ spaced (length_words len width low high)) }
{
    if low == len {
        return push_le(text, len, high);
    }
    push_number(text, b"ge", low)?;
    push_le(text, width, high)
}

/// Appends a row as a line.
fn push_row<C: FamilyCidr>(text: &mut Vec<u8>, name: &[u8], row: &Row<C>) -> Result<(), AllocError>
    ensures { OnOk result (text.new.items ≡ text.old.items ++ row_line C.FAMILY name.now (bits_row C.bits row.now)) }
{
    text.extend_from_slice(family_word(C::FAMILY))?;
    push_word(text, b"prefix-list")?;
    push_word(text, name)?;
    push_word(text, action_word(row.action))?;
    push_word(text, row.network.to_text_with_length().as_str().as_bytes())?;
    push_lengths(
        text,
        row.network.network_length(),
        C::FAMILY.len(),
        row.low,
        row.high,
    )?;
    text.push(b'\n')?;
    Ok(())
}

/// Appends the rows of a prefix list of a name as Cisco IOS and FRR read them, one a line: `ip prefix-list OURS permit
/// 10.0.0.0/8 ge 16 le 24`. They have no numbers, so that a device gives them some in their order, and asks them behind the rows
/// that it has of the list. `le` and `ge` stand where the length is another one than without the word.
///
/// After an error, which is that there is no memory, what was appended isn't told. The law `printed_rows_are_read` says that
/// [`NumberedRows::of_text`](crate::prefix_lists::NumberedRows::of_text) reads the same rows, for a name without white space and rows
/// whose lengths are in order, as `cidr_routes::lists::permitted` has them.
pub fn push_rows<C: FamilyCidr>(
    text: &mut Vec<u8>,
    name: &[u8],
    rows: &[Row<C>],
) -> Result<(), AllocError>
    ensures { OnOk result (text.new.items ≡ text.old.items ++ row_lines C.FAMILY C.bits name.now rows.now) }
{
    for row in rows {
        push_row(text, name, row)?;
    }
    Ok(())
}
