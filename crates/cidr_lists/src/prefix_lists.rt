//! Prefix lists as Cisco IOS and FRR write them.
ghost use Rattle.std.specs.Prelude.{◌≡◌, ◌≢◌, ◌⊎◌, ◌==◌, ◌+◌, ◌^◌, ◌<◌, ◌≤◌, [], ℕ, List, codes, cond, map, IfOk, MatchOption, MatchResult, OnOk, option_map};
ghost use Rattle.std.specs.Bool.{Decides};
ghost use Rattle.std.specs.List.{before_first};
ghost use Rattle.std.specs.List.Sorted.{IsStrictlySortedBy};
ghost use Rattle.std.specs.Map.{keys_of};
ghost use Rattle.std.specs.Ordering.{nat_cmp};
ghost use Rattle.cidr.specs.declared.family.Family.{Family};
ghost use Rattle.cidr.specs.either.IpNetwork.{network_family};
ghost use Rattle.cidr_table.specs.model.LastRows.{AreLastRows};
ghost use Rattle.cidr_lists.specs.Lists.{IsNetworkBy, kept_of};
ghost use Rattle.cidr_lists.specs.ListTexts.{AddsRowLine, is_about, HaveNumberedRows, IsRowsError, RowsChange, numbered_of, rows_after};
ghost use Rattle.cidr_lists.specs.PrefixLists.{ActionSays, AreBadLengths, AreLengths, CiscoSays, ClearedSays, HasBadAction, HasBadCiscoWords, HasBadCleared, HasBadListWords, HasBadName, HasBadNetwork, HasBadNumber, HasBadRow, IsBadOption, IsFamilyWord, IsFurther, IsListWord, IsNumberError, IsOfOtherFamily, IsWordError, LengthsSay, ListWordsSay, NameSays, NetworkSays, NumberSays, OptionSays, RowSays, family_word, high_of, is_mark, low_of};
ghost use Rattle.cidr_lists.specs.PrefixOrder.{AreInOrder, number_behind, with_numbers};
ghost use Rattle.cidr_lists.specs.PayloadFiles.{IsBadNetwork};
ghost use Rattle.cidr_lists.specs.declared.lines.HostBits.TheVariants.{Refused};

use crate::columns::parts_of;
use crate::errors::LineError;
use crate::payloads::{network_of, number_of};
use crate::route_errors::{RouteError, RouteListError};
pub use crate::row_lines::push_rows;
use crate::rules::action_of;
use crate::texts::line_len;
use cidr::{Family, IpCidr, Ipv4Cidr, Ipv6Cidr, NetworkBits};
use cidr_io::lines::is_too_long;
use cidr_io::shown::byte_excerpt;
use cidr_routes::lists::Row;
use cidr_sets::access::Action;
use std::alloc::{AllocError, Global};
use std::mem;

/// A row of a prefix list.
#[derive(Clone, Copy, Debug, Drop)]
pub struct ListRow {
    /// The number behind `seq`.
    pub number: Option<u32>,
    /// What the row does with the networks that it is about.
    pub action: Action,
    /// It is about networks in this one.
    pub network: IpCidr,
    /// The least prefix length of these in bits: that behind `ge`, or else that of the network.
    pub low: u8,
    /// The greatest: that behind `le`, or else the full one behind `ge`, and that of the network without.
    pub high: u8,
}

/// What a line does to the prefix list that it is about.
#[derive(Clone, Copy, Debug, Drop)]
pub enum ListChange {
    /// This row comes behind those of its family.
    AddRow(ListRow),
    /// The rows of this family that stand before the line don't count.
    Clear(Family),
}

/// A row of a prefix list of one family.
#[derive(Clone, Copy, Debug, Drop)]
pub struct NumberedRow<C: NetworkBits + Copy> {
    /// The number behind `seq`, by which [`in_order`] says where it stands in the list.
    pub number: Option<u32>,
    /// The row.
    pub row: Row<C>,
}

/// The rows of a prefix list of one name, those of each family in the order of their lines.
#[derive(Drop)]
pub struct NumberedRows {
    /// Those of IPv4.
    pub v4: Vec<NumberedRow<Ipv4Cidr>>,
    /// Those of IPv6.
    pub v6: Vec<NumberedRow<Ipv6Cidr>>,
}

/// The number behind a word, if a text begins with it, and the rest.
fn option_in<'a>(word: &[u8], text: &'a [u8]) -> Result<(Option<u32>, &'a [u8]), RouteError>
    ensures { MatchResult result (λ parts. OptionSays word.now text.now parts.0 parts.1.now) (IsBadOption word.now text.now) }
{
    let (first, behind) = parts_of(text);
    if first == word {
        let (digits, rest) = parts_of(behind);
        return match number_of(digits) {
            Some(number) => Ok((Some(number), rest)),
            None => Err(bad_number(digits)),
        };
    }
    Ok((None, text))
}

/// The error of a number that is missing, or none.
fn bad_number(digits: &[u8]) -> RouteError
    ensures { IsNumberError digits.now result }
{
    if digits.is_empty() {
        RouteError::Line(LineError::NoField)
    } else {
        RouteError::NoNumber(byte_excerpt(digits))
    }
}

/// The lengths of a row, if they are in order.
fn lengths_by(network: &IpCidr, ge: Option<u32>, le: Option<u32>) -> Option<(u8, u8)>
    ensures { MatchOption result (¬ (AreLengths network.now (low_of network.now ge) (high_of network.now ge le)))
        (λ lengths. (lengths.0 ≡ low_of network.now ge) × (lengths.1 ≡ high_of network.now ge le) × AreLengths network.now lengths.0 lengths.1) }
{
    let len = u32::from(network.network_length());
    let width = u32::from(network.family().len());
    let low = ge.unwrap_or(len);
    let high = match le {
        Some(le) => le,
        None => match ge {
            Some(_) => width,
            None => len,
        },
    };
    if len <= low && low <= high && high <= width {
        Some((low as u8, high as u8))
    } else {
        None
    }
}

/// The error of a further word, if there is one.
fn nothing_in(text: &[u8]) -> Result<(), RouteError>
    ensures { MatchResult result (λ _. text.now ≡ []) (IsFurther text.now) }
{
    if text.is_empty() {
        return Ok(());
    }
    let (word, _) = parts_of(text);
    Err(RouteError::NoWord(byte_excerpt(word)))
}

/// The lengths of a row, by what stands behind its network, of which the number behind `ge` is read and the rest is left.
fn lengths_behind(
    network: &IpCidr,
    text: &[u8],
    ge: Option<u32>,
    rest: &[u8],
) -> Result<(u8, u8), RouteError>
    requires { OptionSays (codes "ge") text.now ge rest.now }
    ensures { MatchResult result (λ lengths. LengthsSay network.now text.now lengths.0 lengths.1) (AreBadLengths network.now text.now) }
{
    match option_in(b"le", rest) {
        Err(e) => Err(e),
        Ok(le) => match nothing_in(le.1) {
            Err(e) => Err(e),
            Ok(()) => match lengths_by(network, ge, le.0) {
                Some(lengths) => Ok(lengths),
                None => Err(RouteError::NoLengths(byte_excerpt(text))),
            },
        },
    }
}

/// The lengths of a row, by what stands behind its network.
fn lengths_of(network: &IpCidr, text: &[u8]) -> Result<(u8, u8), RouteError>
    ensures { MatchResult result (λ lengths. LengthsSay network.now text.now lengths.0 lengths.1) (AreBadLengths network.now text.now) }
{
    match option_in(b"ge", text) {
        Err(e) => Err(e),
        Ok(ge) => lengths_behind(network, text, ge.0, ge.1),
    }
}

/// The network of a row of a family.
fn network_in(family: Family, word: &[u8]) -> Result<IpCidr, RouteError>
    ensures { MatchResult result (λ network. IsNetworkBy Refused word.now network × (network_family network ≡ family))
        (λ e. IsBadNetwork word.now e ⊎ IsOfOtherFamily family word.now e) }
{
    match network_of(word) {
        Err(e) => Err(e),
        Ok(network) => {
            if network.family() == family {
                Ok(network)
            } else {
                Err(RouteError::OtherFamily(byte_excerpt(word)))
            }
        }
    }
}

/// The row of a number and an action, by what stands behind these.
fn network_row(
    family: Family,
    number: Option<u32>,
    action: Action,
    text: &[u8],
) -> Result<ListRow, RouteError>
    ensures { MatchResult result (λ row. (row.number ≡ number) × (row.action ≡ action) × NetworkSays family text.now row)
        (HasBadNetwork family text.now) }
{
    let (word, rest) = parts_of(text);
    match network_in(family, word) {
        Err(e) => Err(e),
        Ok(network) => match lengths_of(&network, rest) {
            Err(e) => Err(e),
            Ok((low, high)) => Ok(ListRow {
                number,
                action,
                network,
                low,
                high,
            }),
        },
    }
}

/// The error of a word that is missing or another one.
fn bad_word(word: &[u8]) -> RouteError
    ensures { IsWordError word.now result }
{
    if word.is_empty() {
        RouteError::Line(LineError::NoField)
    } else {
        RouteError::NoWord(byte_excerpt(word))
    }
}

/// The row of a number, by what stands behind it.
fn action_row(family: Family, number: Option<u32>, text: &[u8]) -> Result<ListRow, RouteError>
    ensures { MatchResult result (λ row. (row.number ≡ number) × ActionSays family text.now row) (HasBadAction family text.now) }
{
    let (word, rest) = parts_of(text);
    match action_of(word) {
        None => Err(bad_word(word)),
        Some(action) => network_row(family, number, action, rest),
    }
}

/// The row that stands behind a name.
fn number_row(family: Family, text: &[u8]) -> Result<ListRow, RouteError>
    ensures { MatchResult result (NumberSays family text.now) (HasBadNumber family text.now) }
{
    match option_in(b"seq", text) {
        Err(e) => Err(e),
        Ok((number, rest)) => action_row(family, number, rest),
    }
}

/// The row and the name that stand behind the word of a list.
fn name_row(family: Family, text: &[u8]) -> Result<(ListRow, &[u8]), RouteError>
    ensures { MatchResult result (λ said. NameSays family text.now (said.0, said.1.now)) (HasBadName family text.now) }
{
    let (name, rest) = parts_of(text);
    if name.is_empty() {
        return Err(RouteError::Line(LineError::NoField));
    }
    match number_row(family, rest) {
        Err(e) => Err(e),
        Ok(row) => Ok((row, name)),
    }
}

/// The family that a word is.
fn family_of(word: &[u8]) -> Option<Family>
    ensures { MatchOption result (¬ (IsFamilyWord word.now)) (λ family. word.now ≡ family_word family) }
{
    if word == b"ip".as_slice() {
        return Some(Family::Ipv4);
    }
    if word == b"ipv6".as_slice() {
        return Some(Family::Ipv6);
    }
    None
}

/// Whether a word is that of a list.
fn is_list_word(word: &[u8]) -> bool
    ensures { Decides result (IsListWord word.now) }
{
    word == b"prefix-list".as_slice()
}

/// The family and what stands behind the words of a list.
fn list_words(text: &[u8]) -> Result<(Family, &[u8]), RouteError>
    ensures { MatchResult result (λ said. ListWordsSay text.now said.0 said.1.now) (HasBadListWords text.now) }
{
    let (word, rest) = parts_of(text);
    let Some(family) = family_of(word) else {
        return Err(bad_word(word));
    };
    let (next, behind) = parts_of(rest);
    if is_list_word(next) {
        return Ok((family, behind));
    }
    Err(bad_word(next))
}

/// The row that a text says, and the name of its list.
fn list_row(text: &[u8]) -> Result<(ListRow, &[u8]), RouteError>
    ensures { MatchResult result (λ said. RowSays text.now said.0 said.1.now) (HasBadRow text.now) }
{
    match list_words(text) {
        Err(e) => Err(e),
        Ok((family, rest)) => name_row(family, rest),
    }
}

/// The family and the name of the list that a text behind `no` says.
fn cleared_list(text: &[u8]) -> Result<(Family, &[u8]), RouteError>
    ensures { MatchResult result (λ said. ClearedSays text.now said.0 said.1.now) (HasBadCleared text.now) }
{
    match list_words(text) {
        Err(e) => Err(e),
        Ok((family, rest)) => {
            let (name, behind) = parts_of(rest);
            if name.is_empty() {
                return Err(RouteError::Line(LineError::NoField));
            }
            match nothing_in(behind) {
                Err(e) => Err(e),
                Ok(()) => Ok((family, name)),
            }
        }
    }
}

/// Whether a word is the one in front of a list that is cleared.
fn is_no_word(word: &[u8]) -> bool
    ensures { Decides result (word.now ≡ codes "no") }
{
    word == b"no".as_slice()
}

/// Whether a line without white space at both ends is empty or a comment.
fn is_no_row(text: &[u8]) -> bool
    ensures { Decides result (before_first is_mark text.now ≡ []) }
{
    match text {
        [] => true,
        [first, ..] => *first == b'!' || *first == b'#',
    }
}

/// What a line of prefix lists of Cisco IOS or FRR says: the name of the list that it is about, and what it does to that; nothing for
/// a line that is blank or a comment, which begins with `!` or `#`. Of `ip prefix-list OURS seq 5 permit 10.0.0.0/8 ge 16` the
/// lengths are 16 to 32. `no ip prefix-list OURS`, with which bgpq4 begins a list, clears it; `no` of a single row is an error.
/// A line of more than 1 MiB is for the caller to find.
///
/// The first error is that of the first word that is wrong, from the front: `NoField` where it is missing, and `NoWord`; behind
/// `seq`, `ge` and `le` it is `NoNumber`; of the network `NoField`, `Quoted`, `NotUtf8` or `NoNetwork`, where a set bit after the
/// prefix is an error, or `OtherFamily`; and last `NoLengths`, where the lengths are not in this order: that of
/// the network, that behind `ge`, that behind `le`, the full one. Neighbours may be equal. It takes time in the length of the line and
/// allocates nothing.
pub fn cisco_line(line: &[u8]) -> Result<(Option<&[u8]>, Option<ListChange>), RouteError>
    ensures { MatchResult result (λ said. CiscoSays line.now (option_map (λ name. name.now) said.0) said.1) (HasBadCiscoWords line.now) }
{
    let text = line.trim_ascii();
    if is_no_row(text) {
        return Ok((None, None));
    }
    let (word, rest) = parts_of(text);
    if is_no_word(word) {
        return match cleared_list(rest) {
            Err(e) => Err(e),
            Ok((family, name)) => Ok((Some(name), Some(ListChange::Clear(family)))),
        };
    }
    match list_row(text) {
        Err(e) => Err(e),
        Ok((row, name)) => Ok((Some(name), Some(ListChange::AddRow(row)))),
    }
}

/// The row of a network of one family.
fn numbered<C: NetworkBits + Copy>(row: &ListRow, network: C) -> NumberedRow<C>
    ensures { result ≡ record { number = row.now.number; row = record { action = row.now.action; network = network; low = row.now.low; high = row.now.high } } }
{
    NumberedRow {
        number: row.number,
        row: Row {
            action: row.action,
            network,
            low: row.low,
            high: row.high,
        },
    }
}

/// Whether a line is about the list of a name, if the line before it is or isn't.
fn is_about(name: &[u8], before: bool, list: Option<&[u8]>) -> bool
    ensures { result ≡ is_about name.now before (option_map (λ name. name.now) list.entry) }
{
    match list {
        Some(list) => list == name,
        None => before,
    }
}

/// Does what a line says, if it is about the list.
fn change_if(
    about: bool,
    change: Option<ListChange>,
    rows: &mut NumberedRows,
) -> Result<(), AllocError>
    ensures { OnOk result ((family : Family) → numbered_of rows.new family ≡ rows_after family about (numbered_of rows.old family) change) }
{
    let Some(change) = change else {
        return Ok(());
    };
    if about {
        rows.change(&change)?;
    }
    Ok(())
}

/// Does to the list of a name what a line says, if it is about it, and tells whether it is.
fn add_row_line(
    name: &[u8],
    number: u64,
    line: &[u8],
    before: bool,
    rows: &mut NumberedRows,
) -> Result<bool, RouteListError>
    ensures { AddsRowLine name.now (kept_of line.now) number before rows.old rows.new result }
{
    if is_too_long(line) {
        return Err(RouteListError::Line(number, RouteError::Line(LineError::TooLong)));
    }
    match cisco_line(line) {
        Ok((list, change)) => {
            let about = is_about(name, before, list);
            change_if(about, change, rows)?;
            Ok(about)
        }
        Err(e) => Err(RouteListError::Line(number, e)),
    }
}

impl NumberedRows {
    /// No rows. It allocates nothing.
    pub fn new(alloc: Global) -> NumberedRows
        ensures { (family : Family) → numbered_of result family ≡ [] }
    {
        NumberedRows {
            v4: Vec::new(alloc),
            v6: Vec::new(alloc),
        }
    }

    /// Does what a line says that is about the list. After an error, which is that there is no memory, what was done isn't told.
    pub fn change(&mut self, change: &ListChange) -> Result<(), AllocError>
        ensures { OnOk result (RowsChange self.old self.new change.now) }
    {
        match change {
            ListChange::AddRow(row) => match row.network {
                IpCidr::V4(network) => self.v4.push(numbered(row, network))?,
                IpCidr::V6(network) => self.v6.push(numbered(row, network))?,
            },
            ListChange::Clear(Family::Ipv4) => self.v4.clear(),
            ListChange::Clear(Family::Ipv6) => self.v6.clear(),
        }
        Ok(())
    }

    /// The rows of the list of a name that a text says, by [`cisco_line`] of each line: those of other lists are read and passed
    /// over. The error is that of the first line in error, with its number from 1 on, where one of more than 1 MiB is
    /// `TooLong`; `NoMemory` may come before it. It takes time in the length of the text.
    pub fn of_text(alloc: Global, name: &[u8], text: &[u8]) -> Result<NumberedRows, RouteListError>
        ensures { MatchResult result (HaveNumberedRows name.now text.now) (IsRowsError text.now) }
    {
        let mut rows = NumberedRows::new(alloc);
        let mut rest = text;
        let mut number = 1;
        let mut about = true;
        loop {
            let (line, behind) = rest.split_at(line_len(rest));
            let after = add_row_line(name, number, line, about, &mut rows)?;
            let Some((_, next)) = behind.split_first() else {
                return Ok(rows);
            };
            rest = next;
            number += 1;
            about = after;
        }
    }
}

/// The number of a row behind others, of which the greatest number is this.
fn number_behind(most: u128, number: Option<u32>) -> u128
    requires { most + 5 < 2 ^ 128 }
    ensures value { result ≡ number_behind most number }
    ensures bound { result ≤ most + 2 ^ 32 }
{
    match number {
        Some(number) => u128::from(number),
        None => most + 5,
    }
}

/// The rows with their numbers.
fn with_numbers<C: NetworkBits + Copy>(
    alloc: Global,
    rows: &[NumberedRow<C>],
) -> Result<Vec<(u128, Row<C>)>, AllocError>
    ensures { IfOk result (λ out. out.items ≡ with_numbers 0 rows.now) }
{
    let mut out = Vec::with_capacity(alloc, rows.len())?;
    let mut most = 0;
    for row in rows {
        let number = number_behind(most, row.number);
        out.push((number, row.row))?;
        most = most.max(number);
    }
    Ok(out)
}

/// Puts rows in the order of their numbers, and leaves of those of one number the last.
fn keep_last<C: NetworkBits + Copy>(rows: &mut Vec<(u128, Row<C>)>) -> Result<(), AllocError>
    ensures ascending { OnOk result (IsStrictlySortedBy nat_cmp (keys_of rows.new.items)) }
    ensures last { OnOk result (AreLastRows rows.old.items rows.new.items) }
{
    rows.sort_by_key(|row| row.0)?;
    rows.dedup_by(
        |row, kept|
            ensures same { result ≡ (row.old.0 == kept.old.0) }
            ensures row { row.new ≡ cond result kept.old row.old }
            ensures kept { kept.new ≡ cond result row.old kept.old }
        {
            let same = row.0 == kept.0;
            if same {
                mem::swap(row, kept);
            }
            same
        },
    );
    Ok(())
}

/// Rows without their numbers.
fn plain_rows<C: NetworkBits + Copy>(
    alloc: Global,
    rows: &[(u128, Row<C>)],
) -> Result<Vec<Row<C>>, AllocError>
    ensures { IfOk result (λ out. out.items ≡ map (λ row. row.1) rows.now) }
{
    rows.iter().map(|row| row.1).collect(alloc)
}

/// The rows of a prefix list in the order in which they are asked, that of their numbers, for the calls of `cidr_routes`. A row
/// without a number has 5 more than the greatest of those before it, and 5 where there is none; of the rows of one number the last
/// counts, as where FRR reads them one after the other. A number that so exceeds 2^32 - 1, where FRR refuses the row, is no error.
///
/// The error is that there is no memory. It takes O(n log n) for n rows.
pub fn in_order<C: NetworkBits + Copy>(
    alloc: Global,
    rows: &[NumberedRow<C>],
) -> Result<Vec<Row<C>>, AllocError>
    ensures { IfOk result (λ out. AreInOrder rows.now out.items) }
{
    let mut numbered = with_numbers(alloc, rows)?;
    keep_last(&mut numbered)?;
    plain_rows(alloc, numbered.as_slice())
}
