// The reader of a sheet (document 01, "Sheet and program"): a line of names, then the lines of values, read by a text cursor.
#![tactic(auto)]

ghost use Rattle.std.specs.Prelude.{◌≡◌, length, Err};
ghost use Rattle.laws.specs.Buffers.{overwrite};
ghost use Rattle.terms.specs.Calls.{refusal};
ghost use Rattle.terms.specs.Table.{row_numbers};
ghost use Rattle.rows.specs.inner.Held.{put_row};
ghost use Rattle.sheets.specs.Sheet.{found_from, rows_from, sheet_found, sheet_rows};
ghost use Rattle.sheets.specs.Call.{sheet_number, sheet_row, sheet_record, table_after};

use cursor::Cursor;
use records::Refusal;
use sheets::{Order, SheetError};
use terms::{Record, Row};

// Writes row k of a table, as far as there is room.
#[tactic(auto, unfolding(rows::specs::inner::Held::put_row))]
fn put_row(table: &mut [u16], k: u16, row: Row)
    ensures { table.new ≡ put_row table.old k row }
{
    numbers::store_four(table, usize::from(k) * 4, row.kind, row.a, row.b, row.c);
}

// The lines of values from a cursor on, and how many there are. Their rows are written to the beginning of a table.
fn read_lines(
    text: &[u8],
    order: Order,
    start: Cursor,
    table: &mut [u16],
) -> Result<u16, SheetError>
    ensures found { result ≡ found_from 512 text.now order 0 start.at }
    ensures rows { table.new ≡ overwrite (row_numbers (rows_from 512 text.now order start.at)) table.old }
{
    let mut cursor = start;
    for k in 0..512u16 {
        if cursor.ended(text) {
            return Ok(k);
        }
        let Some((row, next)) = cursor.line(text, order) else {
            return Err(SheetError::WrongLine(k));
        };
        put_row(table, k, row);
        cursor = next;
    }
    if cursor.ended(text) {
        Ok(512)
    } else {
        Err(SheetError::TooMany)
    }
}

// The rows of a sheet, written to the beginning of a table, and how many there are.
#[tactic(auto, unfolding(sheets::specs::Sheet::sheet_found, sheets::specs::Sheet::sheet_rows, laws::specs::Buffers::overwrite, terms::specs::Table::row_numbers))]
fn read_rows(text: &[u8], table: &mut [u16]) -> Result<u16, SheetError>
    ensures found { result ≡ sheet_found text.now }
    ensures rows { table.new ≡ overwrite (row_numbers (sheet_rows text.now)) table.old }
{
    if 16384 < text.len() {
        return Err(SheetError::TooLong);
    }
    let start = Cursor { at: 0 };
    let (order, behind) = start.names(text).ok_or(SheetError::WrongNames)?;
    read_lines(text, order, behind, table)
}

// The record of a refused sheet: document 01's number of the refusal, and its row.
fn refused(error: SheetError) -> Record
    ensures { result ≡ refusal (sheet_number (Err error)) (sheet_row (Err error)) }
{
    match error {
        SheetError::TooLong => records::refuse(20, 0),
        SheetError::WrongNames => records::refuse(21, 0),
        SheetError::WrongLine(k) => records::refuse(22, u32::from(k)),
        SheetError::TooMany => records::refuse(23, 512),
    }
}

// Reads a sheet into a table.
pub fn read_sheet(text: &[u8], table: &mut [u16]) -> Record
    ensures record { result ≡ sheet_record text.now (length table.old) }
    ensures table { table.new ≡ table_after text.now table.old }
{
    let mut rows = [0u16; 2048];
    let count = match read_rows(text, &mut rows[..]) {
        Ok(count) => count,
        Err(error) => return refused(error),
    };
    if table.len() < 2048 {
        return Refusal::Output.record();
    }
    numbers::copy(&rows[..], usize::from(count) * 4, table);
    records::complete(u32::from(count), 0)
}
