//! Compiling a table into a file of look-ups.
ghost use Rattle.std.specs.Prelude.{◌≢◌, MatchOption};
ghost use Rattle.netset_commands.specs.Commands.{Compile};
ghost use Rattle.netset_commands.specs.Leaving.{Leaves};
ghost use Rattle.netset_commands.specs.Program.{IsCaused, IsCompiled, IsSameFile};

use crate::errors::{CommandError, FileError, Unsaved};
use crate::input::files::Sources;
use crate::input::table::read_table;
use crate::output::answers::Verdict;
use crate::output::compiled::compiled;
use crate::output::folder::Folder;
use cidr_io::memory::Memory;
use cidr_lists::forms::RowForm;

/// The error of a table that is to be written over by its own file, if the two names are the same.
pub fn same_file<'a>(table: &'a str, name: &'a str) -> Option<CommandError<'a>>
    ensures { MatchOption result (table.now ≢ name.now) (IsSameFile table.now name.now) }
{
    if table == name {
        return Some(CommandError::File(name, FileError::NotSaved(Unsaved::Same)));
    }
    None
}

/// The command `compile`.
pub fn compile<'a, M: Memory, F: Sources, D: Folder>(
    memory: &mut M,
    sources: &F,
    form: RowForm,
    table: &'a str,
    name: &'a str,
    folder: &mut D,
) -> Result<Verdict, CommandError<'a>>
    ensures compiled { IsCompiled (F.contents sources.now) form table.now name.now result }
    ensures leaves { Leaves (F.contents sources.now) (Compile form table.now name.now) (D.saved folder.old) (D.saved folder.new) result }
    ensures cause { IsCaused (F.contents sources.now) (record { memory = M.refused memory.new; folder = D.refused folder.new; files = F.reasons sources.now })
        (Compile form table.now name.now) result }
{
    if let Some(e) = same_file(table, name) {
        return Err(e);
    }
    let rows = read_table(memory, sources, form, table)?;
    let file = compiled(memory.alloc(), &rows);
    let file = memory.watch(file)?;
    let Some(bytes) = file else {
        return Err(CommandError::File(table, FileError::TooLarge));
    };
    match folder.replace(name, Some(table), bytes.as_slice()) {
        Ok(()) => Ok(Verdict::Yes),
        Err(why) => Err(CommandError::File(name, FileError::NotSaved(why))),
    }
}
