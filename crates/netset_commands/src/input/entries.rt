//! Reading the lines of lists that have a network or a host.
ghost use Rattle.std.specs.Prelude.{◌≡◌, ◌∷◌, true, IfErr, MatchResult, OnErr, OnOk, map};
ghost use Rattle.netset_commands.specs.Causes.{Cause, FileFails, ReadCause};
ghost use Rattle.netset_commands.specs.Commands.{read_files};
ghost use Rattle.netset_commands.specs.Entries.{AddsEntry, CopiesEntries};
ghost use Rattle.netset_commands.specs.Unchecked.{AddsFileEntries, AreToldEntries, IsUnchecked};

use crate::errors::{CommandError, ListReadError};
use crate::input::begun::FileContent;
use crate::input::files::Sources;
use crate::input::keeping::Said;
use crate::input::lines::{LineKind, read_file_lines};
use cidr_io::lines::is_too_long;
use cidr_io::memory::Memory;
use cidr_lists::entries::{Entry, Place, entry_of};
use cidr_lists::errors::LineError;
use cidr_lists::records::ListForm;
use std::alloc::AllocError;

/// Adds the entry that a line has, if it has one.
pub fn add_entry_line<'a, M: Memory>(
    memory: &mut M,
    place: Place<'a>,
    line: &[u8],
    entries: &mut Vec<Entry<'a>>,
) -> Result<(), ListReadError>
    ensures adds { AddsEntry place.entry.file.now place.entry.number line.now entries.old.items entries.new.items result }
    ensures cause { IfErr result (ReadCause ⊥ (M.refused memory.new)) }
{
    if is_too_long(line) {
        return Err(ListReadError::Line(place.number, LineError::TooLong));
    }
    match entry_of(place, line) {
        Ok(Some(entry)) => {
            memory.push(entries, entry)?;
            Ok(())
        }
        Ok(None) => Ok(()),
        Err(e) => Err(ListReadError::Line(place.number, e)),
    }
}

/// Lines of the list of a file that have a network or a host.
#[derive(Clone, Copy, Drop)]
pub struct HostLines<'a> {
    /// The name of the file.
    pub file: &'a str,
}

impl<'a> LineKind for HostLines<'a> {
    ghost use Rattle.std.proofs.Common.{[], refl, sym, append-nil};
    ghost use Rattle.cidr_lists.specs.Entries.{HasNoHost};
    ghost use Rattle.netset_commands.specs.Entries.{HasAdded};

    type Said = Vec<Entry<'a>>;

    ghost says = { λ kind _ old lines new. HasAdded kind.file.now old.items lines new.items };

    ghost is_bad = { λ _ _. HasNoHost };

    fn add_line<M: Memory>(
        &self,
        memory: &mut M,
        _list_form: ListForm,
        number: u64,
        line: &[u8],
        said: &mut Vec<Entry<'a>>,
    ) -> Result<(), ListReadError> {
        let place = Place {
            file: self.file,
            number,
        };
        add_entry_line(memory, place, line, said)
    }

    ghost none = { λ _ _ said. ([], refl, sym (append-nil said.items)) };
}

/// Adds entries of a file of no name as those of a file.
fn add_kept<'a, M: Memory>(
    memory: &mut M,
    file: &'a str,
    kept: &[Entry<'_>],
    entries: &mut Vec<Entry<'a>>,
) -> Result<(), AllocError>
    ensures added { OnOk result (CopiesEntries file.now kept.now entries.old.items entries.new.items) }
    ensures refused { OnErr result (M.refused memory.new ≡ true) }
{
    for entry in kept {
        let place = Place {
            file,
            number: entry.place.number,
        };
        memory.push(
            entries,
            Entry {
                place,
                host: entry.host,
                is_canonical: entry.is_canonical,
            },
        )?;
    }
    Ok(())
}

/// Adds the entries of the list of a file, which is read unless it is read already.
fn add_file<'a, M: Memory, F: Sources>(
    memory: &mut M,
    sources: &F,
    file: &'a str,
    entries: &mut Vec<Entry<'a>>,
) -> Result<(), CommandError<'a>>
    ensures adds { AddsFileEntries (F.contents sources.now file.now) file.now entries.old.items entries.new.items result }
    ensures cause { IfErr result (Cause (FileFails (F.contents sources.now) (F.reasons sources.now)) (M.refused memory.new)) }
{
    match sources.kept(file) {
        Some(FileContent::Lines(Said::Hosts(kept))) => {
            add_kept(memory, file, kept.as_slice(), entries)?;
            Ok(())
        }
        _ => read_file_lines(memory, sources, &HostLines { file }, file, entries),
    }
}

/// The entries of the lists of a file and of others.
fn read_named<'a, M: Memory, F: Sources>(
    memory: &mut M,
    sources: &F,
    file: &'a str,
    files: &[&'a str],
) -> Result<Vec<Entry<'a>>, CommandError<'a>>
    ensures reads { MatchResult result
        (λ entries. AreToldEntries (F.contents sources.now) (file.now ∷ map (λ file. file.now) files.now) entries.items)
        (IsUnchecked (F.contents sources.now) (file.now ∷ map (λ file. file.now) files.now)) }
    ensures cause { IfErr result (Cause (FileFails (F.contents sources.now) (F.reasons sources.now)) (M.refused memory.new)) }
{
    let mut entries = Vec::new(memory.alloc());
    add_file(memory, sources, file, &mut entries)?;
    for other in files {
        add_file(memory, sources, other, &mut entries)?;
    }
    Ok(entries)
}

/// The entries of the lists of a command's files: of the standard input, if none is named.
pub fn read_entries<'a, M: Memory, F: Sources>(
    memory: &mut M,
    sources: &F,
    files: &[&'a str],
) -> Result<Vec<Entry<'a>>, CommandError<'a>>
    ensures reads { MatchResult result
        (λ entries. AreToldEntries (F.contents sources.now) (read_files (map (λ file. file.now) files.now)) entries.items)
        (IsUnchecked (F.contents sources.now) (read_files (map (λ file. file.now) files.now))) }
    ensures cause { IfErr result (Cause (FileFails (F.contents sources.now) (F.reasons sources.now)) (M.refused memory.new)) }
{
    match files.split_first() {
        Some((file, files)) => read_named(memory, sources, file, files),
        None => read_named(memory, sources, "-", &[]),
    }
}
