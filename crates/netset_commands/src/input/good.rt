//! Lists without their lines in error.
ghost use Rattle.netset_commands.specs.Keeping.{good_files, reasons_beside};

use crate::errors::Reason;
use crate::input::begun::FileContent;
use crate::input::files::Sources;
use crate::input::keeping::{Kept, Said, list_named};
use cidr_io::source::Source;
use cidr_lists::records::ListForm;

/// A list in memory, or a file that is no list.
#[derive(Drop)]
pub enum GoodReader<'a, S: Source + Drop> {
    Held(&'a [u8]),
    Beside(S),
}

impl<S: Source + Drop> Source for GoodReader<'_, S> {
    ghost use Rattle.netset_commands.specs.Opened.{good_left};

    ghost left = { good_left S.left };

    fn read_some(&mut self, buf: &mut [u8]) -> Option<usize> {
        match self {
            GoodReader::Held(bytes) => bytes.read_some(buf),
            GoodReader::Beside(source) => source.read_some(buf),
        }
    }
}

/// Lists that were read whole, each of whose lines in error is left empty, and where other files are read from.
#[derive(Drop)]
pub struct GoodLists<'a, F: Sources> {
    pub lists: &'a [Kept<'a>],
    pub sources: &'a F,
    pub list_form: ListForm,
}

impl<'a, F: Sources> Sources for GoodLists<'a, F> {
    type Reader = GoodReader<'a, F::Reader>;

    ghost contents = { λ s. good_files s.list_form s.lists.now (F.contents s.sources.now) };

    ghost reasons = { λ s. reasons_beside s.lists.now (F.reasons s.sources.now) };

    fn open(&self, name: &str) -> Result<Self::Reader, Reason> {
        let lists = self.lists;
        match list_named(lists, name) {
            Some(list) => Ok(GoodReader::Held(list.good_bytes())),
            None => match self.sources.open(name) {
                Ok(reader) => Ok(GoodReader::Beside(reader)),
                Err(why) => Err(why),
            },
        }
    }

    fn list_form(&self) -> ListForm {
        self.list_form
    }

    fn kept(&self, _name: &str) -> Option<&FileContent<Said>> {
        None
    }
}
