//! The files of a run and its standard input.
ghost use Rattle.std.specs.Prelude.{◌≡◌, ℕ, List, Option, Some, None, IfErr, IfOk, IfSome};
ghost use Rattle.netset_commands.specs.Causes.{IsToldReason};
ghost use Rattle.netset_commands.specs.Keeping.{IsGivenBy};
ghost use Rattle.cidr_lists.specs.Lists.{Text};
ghost use Rattle.netset_commands.specs.Opened.{reason_of};
ghost use Rattle.netset_commands.specs.Program.{contents_in};

use crate::errors::Reason;
use crate::input::begun::FileContent;
use crate::input::keeping::Said;
use crate::output::terminal::{Progress, Watched};
use cidr_io::source::Source;
use cidr_lists::records::ListForm;
use std::fs::OpenFile;
use std::io::{Eprint, ErrorKind, Input, Read};
use std::rt::Clock;
use std::{fs, io, rt};

/// What a run reads: its files and its standard input.
pub trait Files {
    ghost use Rattle.netset_commands.specs.declared.errors.Reason.{Reason};

    type Reader: Source + Drop;

    /// The bytes of the file of a name, if they are told: it can be read then. The name `-` is that of the standard
    /// input.
    ghost contents: { Self → List ℕ → Option (List ℕ) };

    /// Why the file of a name can't be opened, if that is told.
    ghost reasons: { Self → List ℕ → Option Reason };

    /// Opens the file of this name, or tells why it can't be opened.
    fn open(&self, name: &str) -> Result<Self::Reader, Reason>
        ensures left { IfOk result (λ reader. (text : List ℕ) → contents self.now name.now ≡ Some text
            → Self.Reader.left reader ≡ Some text) }
        ensures opened { IfOk result (λ _. reasons self.now name.now ≡ None) }
        ensures none { IfErr result (λ _. contents self.now name.now ≡ None) }
        ensures why { IfErr result (IsToldReason (reasons self.now name.now)) };
}

/// What lists are read from, and how.
pub trait Sources {
    ghost use Rattle.netset_commands.specs.declared.errors.Reason.{Reason};

    type Reader: Source + Drop;

    /// The list of the file of a name, if it is told. The name `-` is that of the standard input.
    ghost contents: { Self → List ℕ → Option Text };

    /// Why the file of a name can't be opened, if that is told.
    ghost reasons: { Self → List ℕ → Option Reason };

    /// Opens the file of this name, or tells why it can't be opened.
    fn open(&self, name: &str) -> Result<Self::Reader, Reason>
        ensures left { IfOk result (λ reader. (text : Text) → contents self.now name.now ≡ Some text
            → Self.Reader.left reader ≡ Some text.bytes) }
        ensures opened { IfOk result (λ _. reasons self.now name.now ≡ None) }
        ensures none { IfErr result (λ _. contents self.now name.now ≡ None) }
        ensures why { IfErr result (IsToldReason (reasons self.now name.now)) };

    /// What is done with a set bit after the prefix of a network.
    fn list_form(&self) -> ListForm
        ensures { (name : List ℕ) (text : Text) → contents self.now name ≡ Some text → text.form ≡ result };

    /// What the lines of the file of this name say, if they are read already and none is in error, or its bytes, if they are
    /// and it begins as a file of look-ups.
    fn kept(&self, name: &str) -> Option<&FileContent<Said>>
        ensures { IfSome result (λ given. (text : Text) → contents self.now name.now ≡ Some text → IsGivenBy text given.now) };
}

/// The files of a run, and how their lists are read.
#[derive(Clone, Copy)]
pub struct ReadBy<'a, F: Files> {
    pub files: &'a F,
    pub list_form: ListForm,
}

impl<F: Files> Sources for ReadBy<'_, F> {
    type Reader = F::Reader;

    ghost contents = { λ s. contents_in s.list_form (F.contents s.files.now) };

    ghost reasons = { λ s. F.reasons s.files.now };

    fn open(&self, name: &str) -> Result<F::Reader, Reason> {
        self.files.open(name)
    }

    fn list_form(&self) -> ListForm {
        self.list_form
    }

    fn kept(&self, _name: &str) -> Option<&FileContent<Said>> {
        None
    }
}

/// A file or the standard input.
#[derive(Drop)]
pub enum Opened<F: Read + Drop, I: Read + Drop> {
    File(F),
    Input(I),
}

impl<F: Read + Drop, I: Read + Drop> Read for Opened<F, I> {
    ghost use Rattle.netset_commands.specs.Opened.{opened_remaining};

    ghost remaining = { opened_remaining F.remaining I.remaining };

    fn read(&mut self, buf: &mut [u8]) -> io::Result<usize> {
        match self {
            Opened::File(file) => file.read(buf),
            Opened::Input(input) => input.read(buf),
        }
    }
}

/// Why the system did not open a file.
fn reason_of(kind: ErrorKind) -> Reason
    ensures { result ≡ reason_of kind }
{
    match kind {
        ErrorKind::NotFound => Reason::NotFound,
        ErrorKind::PermissionDenied => Reason::Denied,
        _ => Reason::Unknown,
    }
}

/// Whether a file is a directory, as far as the system tells it.
fn is_directory<F: OpenFile>(file: &F) -> bool {
    match file.metadata() {
        Ok(metadata) => metadata.is_dir(),
        Err(_) => false,
    }
}

/// Opens a file of the system that is no directory.
fn open_file<R: rt::Files>(runtime: &R, name: &str) -> Result<R::File, Reason> {
    match fs::open(runtime, name) {
        Ok(file) => {
            if is_directory(&file) {
                return Err(Reason::Directory);
            }
            Ok(file)
        }
        Err(e) => Err(reason_of(e.kind())),
    }
}

/// The files of the system and its standard input, which nothing is told of, and how far reading them is.
#[derive(Clone, Copy)]
pub struct System<'a, R: rt::Files + Input + Clock + Eprint> {
    pub runtime: &'a R,
    pub progress: &'a Progress<'a, R>,
}

impl<'a, R: rt::Files + Input + Clock + Eprint> Files for System<'a, R> {
    type Reader = Watched<'a, Opened<R::File, R::Reader>, R>;

    ghost contents = { λ _ _. None };

    ghost reasons = { λ _ _. None };

    fn open(&self, name: &str) -> Result<Self::Reader, Reason> {
        let source = if name == "-" {
            Opened::Input(self.runtime.reader())
        } else {
            Opened::File(open_file(self.runtime, name)?)
        };
        Ok(Watched {
            source,
            progress: self.progress,
        })
    }
}
