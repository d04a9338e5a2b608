//! Files that may be files of look-ups, known by their first byte.
ghost use Rattle.std.specs.Prelude.{◌≡◌, None, Some, IfErr, IfNone, IfOk, IfSome, false, option_to_list};
ghost use Rattle.cidr_lists.specs.Lists.{Text};
ghost use Rattle.netset_commands.specs.Begun.{IsBegunAt, begun_left};
ghost use Rattle.netset_commands.specs.Causes.{Cause, FileFails};
ghost use Rattle.netset_commands.specs.Compiled.{begins_file};
ghost use Rattle.netset_commands.specs.Gathering.{IsNotReadFurther};

use crate::errors::{CommandError, Reason};
use crate::input::files::Sources;
use cidr_io::lines::{LineReadError, read_to_end};
use cidr_io::memory::Memory;
use cidr_io::source::Source;

/// The first byte of a file of look-ups, which begins no UTF-8 text.
const FIRST: u8 = 0x89;

/// What a file has in the place of a list or of a table.
#[derive(Drop)]
pub enum FileContent<T> {
    /// What its lines say.
    Lines(T),
    /// The bytes of a file that begins as one of look-ups.
    Stored(Vec<u8>),
}

/// A source whose first byte was read.
#[derive(Drop)]
pub struct Begun<S: Source + Drop> {
    first: Option<u8>,
    source: S,
}

impl<S: Source + Drop> Begun<S> {
    /// Whether it begins as a file of look-ups.
    pub fn is_stored(&self) -> bool
        ensures { result ≡ begins_file (option_to_list self.now.first) }
    {
        match self.first {
            Some(first) => first == FIRST,
            None => false,
        }
    }
}

impl<S: Source + Drop> Source for Begun<S> {
    ghost use Rattle.netset_commands.specs.Begun.{begun_left};

    ghost left = { begun_left S.left };

    fn read_some(&mut self, buf: &mut [u8]) -> Option<usize> {
        let Some(first) = self.first else {
            return self.source.read_some(buf);
        };
        if buf.is_empty() {
            return Some(0);
        }
        buf[0] = first;
        self.first = None;
        Some(1)
    }
}

/// Reads the first byte of a source, if it has one; `None` where the read fails.
fn begin<S: Source + Drop>(source: S) -> Option<Begun<S>>
    ensures begun { IfSome result (λ begun. IfSome (S.left source) (λ text. IsBegunAt S.left text begun)) }
    ensures failed { IfNone result (S.left source ≡ None) }
{
    let mut source = source;
    let mut room = [0];
    let count = source.read_some(&mut room)?;
    let first = if count == 0 { None } else { Some(room[0]) };
    Some(Begun { first, source })
}

/// Opens the file of a name and reads its first byte, if it has one.
pub fn begin_file<'a, F: Sources>(
    sources: &F,
    file: &'a str,
) -> Result<Begun<F::Reader>, CommandError<'a>>
    ensures told { IfOk result (λ begun. (text : Text) → F.contents sources.now file.now ≡ Some text
        → IsBegunAt F.Reader.left text.bytes begun) }
    ensures opened { IfOk result (λ _. F.reasons sources.now file.now ≡ None) }
    ensures stopped { IfErr result (IsNotReadFurther file.now) }
    ensures cause { IfErr result (Cause (FileFails (F.contents sources.now) (F.reasons sources.now)) false) }
{
    let reader = match sources.open(file) {
        Ok(reader) => reader,
        Err(why) => return Err(CommandError::Input(file, why)),
    };
    match begin(reader) {
        Some(begun) => Ok(begun),
        None => Err(CommandError::Input(file, Reason::Unknown)),
    }
}

/// The bytes of the file of a name, whose first byte was read.
pub fn read_whole<'a, M: Memory, S: Source + Drop>(
    memory: &mut M,
    file: &'a str,
    begun: Begun<S>,
) -> Result<Vec<u8>, CommandError<'a>>
    ensures bytes { IfOk result (λ bytes. IfSome (begun_left S.left begun) (λ text. bytes.items ≡ text)) }
    ensures stopped { IfErr result (IsNotReadFurther file.now) }
    ensures cause { IfErr result
        (Cause (λ name _. (name ≡ file.now) × (begun_left S.left begun ≡ None)) (M.refused memory.new)) }
{
    match read_to_end(memory, begun) {
        Ok(bytes) => Ok(bytes),
        Err(LineReadError::Failed) => Err(CommandError::Input(file, Reason::Unknown)),
        Err(LineReadError::NoMemory) => Err(CommandError::NoMemory),
    }
}
