// The normal form call (document 01, "Normal form" and "Where a call stops"): the table is checked, its variables are placed, and the row's
// normal form is appended to nothing.
#![tactic(auto)]

ghost use Rattle.std.specs.Prelude.{◌≡◌, length};
ghost use Rattle.records.specs.Refusals.{record_of};
ghost use Rattle.forms.specs.Call.{form_record, form_after};

use records::Refusal;
use terms::Record;

// Room for the numbers of any form.
const FORM_ROOM: usize = 4096;

// The normal form of a row, four numbers for each piece, or why the call stops.
fn try_form(table: &[u16], row: usize, out: &mut [u16]) -> Result<Record, Refusal>
    ensures record { record_of result ≡ form_record table.now row (length out.old) }
    ensures form { out.new ≡ form_after table.now row out.old }
{
    let mut widths = [0u16; 512];
    let mut variables = [0u16; 512];
    checker::check_and_place(table, &mut widths, &mut variables)?;
    if rules::not_term(table, table.len() / 4, row) {
        return Err(Refusal::NoTerm);
    }
    if out.len() < FORM_ROOM {
        return Err(Refusal::Output);
    }
    let pieces = appender::put_form(table, &widths, &variables, row, out, 0);
    Ok(records::complete(pieces as u32, widths[row].into()))
}

// The normal form of a row, four numbers for each piece.
pub fn normal_form(table: &[u16], row: usize, out: &mut [u16]) -> Record
    ensures record { result ≡ form_record table.now row (length out.old) }
    ensures form { out.new ≡ form_after table.now row out.old }
{
    try_form(table, row, out).unwrap_or_else(Refusal::record)
}
