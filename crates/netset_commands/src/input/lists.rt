//! Lines of lists of networks.
ghost use Rattle.std.specs.Prelude.{IfErr};
ghost use Rattle.netset_commands.specs.Causes.{ReadCause};
ghost use Rattle.netset_commands.specs.Reading.{AddsLine};

use crate::errors::ListReadError;
use crate::input::lines::LineKind;
use cidr_io::lines::is_too_long;
use cidr_io::memory::Memory;
use cidr_lists::errors::LineError;
use cidr_lists::lists::Lists;
use cidr_lists::records::{ListForm, content_in};

/// Adds the networks that a line says.
pub fn add_list_line<M: Memory>(
    memory: &mut M,
    list_form: ListForm,
    number: u64,
    line: &[u8],
    lists: &mut Lists,
) -> Result<(), ListReadError>
    ensures adds { AddsLine list_form line.now number lists.old lists.new result }
    ensures cause { IfErr result (ReadCause ⊥ (M.refused memory.new)) }
{
    if is_too_long(line) {
        return Err(ListReadError::Line(number, LineError::TooLong));
    }
    match content_in(list_form, line) {
        Ok(content) => {
            let pushed = lists.push_content(memory.alloc(), &content);
            memory.watch(pushed)?;
            Ok(())
        }
        Err(e) => Err(ListReadError::Line(number, e)),
    }
}

/// Lines that are networks, addresses or ranges.
#[derive(Clone, Copy, Drop)]
pub struct NetworkLines;

impl LineKind for NetworkLines {
    ghost use Rattle.std.proofs.Common.{[], sym, append-nil};
    ghost use Rattle.cidr_lists.specs.Lists.{IsBadBy};
    ghost use Rattle.cidr_lists.specs.Reading.{listed};
    ghost use Rattle.netset_commands.specs.LineKinds.{HasListed};

    type Said = Lists;

    ghost says = { λ _. HasListed };

    ghost is_bad = { λ _. IsBadBy };

    fn add_line<M: Memory>(
        &self,
        memory: &mut M,
        list_form: ListForm,
        number: u64,
        line: &[u8],
        said: &mut Lists,
    ) -> Result<(), ListReadError> {
        add_list_line(memory, list_form, number, line, said)
    }

    ghost none = { λ _ _ lists. ([], tt, λ family. sym (append-nil (listed lists family))) };
}
