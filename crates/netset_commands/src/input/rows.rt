//! Lines of tables: networks with a value each.
ghost use Rattle.std.specs.Prelude.{IfErr};
ghost use Rattle.netset_commands.specs.Causes.{ReadCause};
ghost use Rattle.netset_commands.specs.LookUps.{AddsRow};

use crate::errors::ListReadError;
use crate::input::lines::LineKind;
use cidr_io::lines::is_too_long;
use cidr_io::memory::Memory;
use cidr_lists::errors::LineError;
use cidr_lists::forms::{RowForm, row_of};
use cidr_lists::records::ListForm;
use cidr_lists::rows::RowList;

/// Adds the network and the value that a line says, if it says them.
pub fn add_row_line<M: Memory>(
    memory: &mut M,
    form: RowForm,
    list_form: ListForm,
    number: u64,
    line: &[u8],
    rows: &mut RowList,
) -> Result<(), ListReadError>
    ensures adds { AddsRow form list_form line.now number rows.old rows.new result }
    ensures cause { IfErr result (ReadCause ⊥ (M.refused memory.new)) }
{
    if is_too_long(line) {
        return Err(ListReadError::Line(number, LineError::TooLong));
    }
    match row_of(form, list_form.host_bits(), line) {
        Ok(Some((network, value))) => {
            let pushed = rows.push(&network, value);
            memory.watch(pushed)?;
            Ok(())
        }
        Ok(None) => Ok(()),
        Err(e) => Err(ListReadError::Line(number, e)),
    }
}

impl LineKind for RowForm {
    ghost use Rattle.std.proofs.Common.{[]};
    ghost use Rattle.cidr_lists.specs.Forms.{IsBadRow};
    ghost use Rattle.cidr_lists.specs.Lists.{bits_in};
    ghost use Rattle.netset_commands.specs.LineKinds.{HasRows};

    type Said = RowList;

    ghost says = { HasRows };

    ghost is_bad = { λ row form. IsBadRow row (bits_in form) };

    fn add_line<M: Memory>(
        &self,
        memory: &mut M,
        list_form: ListForm,
        number: u64,
        line: &[u8],
        said: &mut RowList,
    ) -> Result<(), ListReadError> {
        add_row_line(memory, *self, list_form, number, line, said)
    }

    ghost none = { λ _ _ _ none. ([], tt, none) };
}
