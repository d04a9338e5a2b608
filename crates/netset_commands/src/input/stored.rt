//! Files of look-ups in the place of a table.
ghost use Rattle.std.specs.Prelude.{◌≡◌, ◌<◌, ◌+◌, ◌^◌, ◌++◌, None, Bool, List, ℕ, IfErr, IfOk, MatchResult, OnOk, length, map, option_map};
ghost use Rattle.cidr.specs.declared.family.Family.{Family as AddressFamily};
ghost use Rattle.cidr.specs.model.Bits.{bits};
ghost use Rattle.cidr.specs.model.Network.{width_of};
ghost use Rattle.cidr_files.specs.Faults.{IsFaultOfBytes};
ghost use Rattle.cidr_files.specs.Tables.{AreOffsets, IsStoredTable, offsets_in, part_at, parts_in, stored_networks, value_in};
ghost use Rattle.cidr_lookup.specs.Keys.{prefix_bits};
ghost use Rattle.cidr_lists.specs.Forms.{AreFit, IsUnfitAt};
ghost use Rattle.cidr_lists.specs.Sets.{networks_of};
ghost use Rattle.cidr_sets.specs.model.Sets.{IsSetOf};
ghost use Rattle.netset_commands.specs.Causes.{Cause};
ghost use Rattle.netset_commands.specs.Commands.{IsInRow};
ghost use Rattle.netset_commands.specs.Compiled.{HasTable};
ghost use Rattle.netset_commands.specs.KeptLines.{IsRowAmong, IsRowOf};
ghost use Rattle.netset_commands.specs.LookUps.{LooksUp};
ghost use Rattle.netset_commands.specs.Stored.{ChecksFile, IsFaultTold, TellsUnfit, by_family, stored_rows, file_error_of, keys_error_of, table_error_of, words_error_of};

use crate::errors::{CommandError, FileError};
use crate::input::table::{Answer, LookUps, RowLookUps, push_match, push_none};
use cidr::{BitString, FamilyCidr, IpAddr, Ipv4Cidr, Ipv6Cidr};
use cidr_files::{
    FileAddress, FileFault, FileTable, FileTables, Ipv4Bytes, Ipv6Bytes, TableFault, checked,
    lookup,
};
use cidr_io::block::Block;
use cidr_io::memory::Memory;
use cidr_io::sink::{OutputFailed, Sink};
use cidr_lists::errors::LineError;
use cidr_lists::formats::LineFormat;
use cidr_lists::forms::check_value;
use cidr_lists::lists::Lists;
use cidr_lists::printing::block_text;
use cidr_lists::sets::Sets;
use cidr_lookup::{Address, TableError};
use std::alloc::{AllocError, Global};
use std::marker::Model;

/// The tables of a file of look-ups, which were checked.
#[derive(Drop)]
pub struct Stored<'a> {
    tables: FileTables<'a>,
}

impl<'a> Model for Stored<'a> {
    ghost use Rattle.std.specs.Prelude.{Bool, List, ℕ};
    ghost use Rattle.netset_commands.specs.Stored.{AreTables, file_rows};

    ghost Value = { List (List Bool × List ℕ) × List (List Bool × List ℕ) };

    ghost view = { λ s. file_rows s.tables };

    ghost invariant = { λ s. AreTables s.tables };
}

impl<'a> Stored<'a> {
    /// The tables of the bytes of a file, or what is told of what is wrong with them. The other error is that there is
    /// no memory to see.
    fn of_bytes(alloc: Global, bytes: &'a [u8]) -> Result<Result<Stored<'a>, FileError>, AllocError>
        ensures { IfOk result
            (λ made. MatchResult made (λ rows. HasTable (by_family rows) bytes.now) (IsFaultTold bytes.now)) }
    {
        match checked(alloc, bytes) {
            Ok(tables) => Ok(Ok(Stored { tables })),
            Err(fault) => match file_error_of(&fault) {
                Some(why) => Ok(Err(why)),
                None => Err(AllocError),
            },
        }
    }

    /// The tables of the bytes of the file of a name: one pass over them.
    pub fn check<'n, M: Memory>(
        memory: &mut M,
        name: &'n str,
        bytes: &'a [u8],
    ) -> Result<Stored<'a>, CommandError<'n>>
        ensures checks { ChecksFile name.now bytes.now result }
        ensures cause { IfErr result (Cause (λ _ _. ⊥) (M.refused memory.new)) }
    {
        let made = Stored::of_bytes(memory.alloc(), bytes);
        match memory.watch(made)? {
            Ok(stored) => Ok(stored),
            Err(why) => Err(CommandError::File(name, why)),
        }
    }

    /// Sees that the values can be told in a format. The error is that of the first row whose value can't, with its number
    /// among the rows of its family, from 1 on, those of IPv4 before those of IPv6.
    pub fn check_values<'n>(
        &self,
        format: LineFormat,
        name: &'n str,
    ) -> Result<(), CommandError<'n>>
        ensures { MatchResult result (λ _. (family : AddressFamily) → AreFit format (by_family self.now family))
            (TellsUnfit format (by_family self.now) name.now) }
    {
        if let Err((number, e)) = check_part::<Ipv4Bytes>(format, &self.tables.ipv4) {
            return Err(CommandError::Line(name, number, e));
        }
        if let Err((number, e)) = check_part::<Ipv6Bytes>(format, &self.tables.ipv6) {
            return Err(CommandError::Line(name, number, e));
        }
        Ok(())
    }

    /// The addresses of the networks of its rows. The error is that there is no memory.
    pub fn addresses(&self, alloc: Global) -> Result<Sets, AllocError>
        ensures { IfOk result (λ sets. (family : AddressFamily)
            → IsSetOf 129 (IsInRow (by_family self.now) family) (networks_of sets family)) }
    {
        let mut lists = Lists::new(alloc);
        push_networks::<Ipv4Bytes, Ipv4Cidr>(&self.tables.ipv4, &mut lists.v4)?;
        push_networks::<Ipv6Bytes, Ipv6Cidr>(&self.tables.ipv6, &mut lists.v6)?;
        Ok(Sets::of_lists(lists))
    }

    /// The length of the longest network that an address is in, and its value.
    fn stored_row(&self, address: &IpAddr) -> Option<(u8, &'a [u8])>
        ensures { IsRowOf (by_family self.now) address.now (option_map (λ row. (row.0, row.1.now)) result) }
    {
        match address {
            IpAddr::V4(address) => {
                let bytes = Ipv4Bytes::of(u128::from(address.to_bits()));
                found_in(&self.tables.ipv4, bytes)
            }
            IpAddr::V6(address) => {
                let bytes = Ipv6Bytes::of(address.to_bits());
                found_in(&self.tables.ipv6, bytes)
            }
        }
    }
}

/// The value of a row; no bytes where the offsets are wrong.
fn stored_value<'a>(part: &FileTable<'a>, row: usize) -> &'a [u8]
    requires { row + 1 < 2 ^ 64 }
    ensures { (rows : ℕ) → row < rows → AreOffsets (offsets_in (parts_in part.now)) rows (length (part_at (parts_in part.now) 5))
        → result.now ≡ value_in (parts_in part.now) row }
{
    let (offsets, _) = part.offsets.as_chunks::<4>();
    if row + 1 >= offsets.len() {
        return &[];
    }
    let from = u32::from_le_bytes(offsets[row]);
    let to = u32::from_le_bytes(offsets[row + 1]);
    if from > to || to as usize > part.values.len() {
        return &[];
    }
    &part.values[from as usize..to as usize]
}

/// Sees that the values of the rows of a table can be told in a format. The error is that of the first which can't, with
/// the number of its row, from 1 on.
fn check_part<W: FileAddress>(
    format: LineFormat,
    part: &FileTable<'_>,
) -> Result<(), (u64, LineError)>
    requires { IsStoredTable W.width W.padding W.numbers (parts_in part.now) part.now.steps }
    ensures { MatchResult result (λ _. AreFit format (stored_rows W.width W.numbers (parts_in part.now)))
        (λ bad. IsUnfitAt format (stored_rows W.width W.numbers (parts_in part.now)) bad.0 bad.1) }
{
    let addresses = W::addresses(part.addresses);
    for row in 0..addresses.len().min(part.lengths.len()) {
        if let Err(e) = check_value(format, stored_value(part, row)) {
            return Err((row as u64 + 1, e));
        }
    }
    Ok(())
}

/// Adds the networks of the rows of a table to others of their family.
fn push_networks<W: FileAddress, C: FamilyCidr>(
    part: &FileTable<'_>,
    networks: &mut Vec<C>,
) -> Result<(), AllocError>
    requires { W.width ≡ width_of C.FAMILY }
    ensures { OnOk result (map C.bits networks.new.items ≡ map C.bits networks.old.items
        ++ map (prefix_bits W.width) (stored_networks W.numbers (parts_in part.now))) }
{
    let addresses = W::addresses(part.addresses);
    for row in 0..addresses.len().min(part.lengths.len()) {
        let mut network = C::new_host(C::from_number(addresses[row].number()));
        network.clip(usize::from(part.lengths[row]));
        networks.push(network)?;
    }
    Ok(())
}

/// What is told of what is wrong with keys, or nothing where there was no memory to see.
fn keys_error_of(error: &TableError) -> Option<FileError>
    ensures { result ≡ keys_error_of error.now }
{
    match error {
        TableError::NoMemory => None,
        TableError::TooMany | TableError::Refused(_) | TableError::TooLarge => {
            Some(FileError::Changed)
        }
    }
}

/// The same of words.
fn words_error_of(fault: &cidr_lookup::WordsFault) -> Option<FileError>
    ensures { result ≡ words_error_of fault.now }
{
    match fault {
        cidr_lookup::WordsFault::Keys(error) => keys_error_of(error),
        cidr_lookup::WordsFault::Steps
        | cidr_lookup::WordsFault::TooLong
        | cidr_lookup::WordsFault::First(_)
        | cidr_lookup::WordsFault::Word(_) => Some(FileError::Changed),
    }
}

/// The same of a table.
fn table_error_of(fault: &TableFault) -> Option<FileError>
    ensures { result ≡ table_error_of fault.now }
{
    match fault {
        TableFault::Words(fault) => words_error_of(fault),
        TableFault::Offsets => Some(FileError::Changed),
    }
}

/// The same of a file.
fn file_error_of(fault: &FileFault) -> Option<FileError>
    ensures { result ≡ file_error_of fault.now }
{
    match fault {
        FileFault::Magic => Some(FileError::Unlike),
        FileFault::Old => Some(FileError::Old),
        FileFault::Version(_) => Some(FileError::Version),
        FileFault::Short => Some(FileError::Short),
        FileFault::Long => Some(FileError::Long),
        FileFault::Ipv4(fault) | FileFault::Ipv6(fault) => table_error_of(fault),
    }
}

/// The length of the longest network of a table that an address is in, and its value.
fn found_in<'a, W: FileAddress>(part: &FileTable<'a>, address: W) -> Option<(u8, &'a [u8])>
    requires { IsStoredTable W.width W.padding W.numbers (parts_in part.now) part.now.steps }
    ensures { IsRowAmong (stored_rows W.width W.numbers (parts_in part.now)) (bits W.width (W.value address))
        (option_map (λ row. (row.0, row.1.now)) result) }
{
    let (row, value) = lookup(part, address)?;
    Some((part.lengths[row], value))
}

impl LookUps for Stored<'_> {
    ghost rows = { by_family };

    ghost is_found = { λ _ _ _. Unit {0} };

    fn find(&self, _address: &IpAddr) -> Option<Answer> {
        None
    }

    fn push<S: Sink>(
        &self,
        address: &IpAddr,
        _found: Option<Answer>,
        block: &mut Block,
        out: &mut S,
    ) -> Result<bool, OutputFailed> {
        let text = address.to_text();
        match self.stored_row(address) {
            Some((len, value)) => push_match(block, out, text, block_text(address, len), value),
            None => push_none(block, out, text),
        }
    }
}

impl RowLookUps for Stored<'_> {
    fn row(&self, address: &IpAddr) -> Option<(u8, &[u8])> {
        self.stored_row(address)
    }
}
