// A copy of a table in which each cut of a cut is made one cut, so that the normal forms of its rows take few calls, and in which the
// revised equations are left off (document 02, (vii)).
#![tactic(auto)]

ghost use Rattle.std.specs.Prelude.{◌≡◌, suc, ◌≤◌, min, length, drop};
ghost use Rattle.terms.specs.Table.{rows_of, row_at, some_row, of_line, revised};
ghost use Rattle.copies.specs.inner.Shortened.{short_in, stored_row, Shortens};
ghost use Rattle.copies.specs.inner.Revised.{LeavesOff, LeavesOffRevised};
ghost use Rattle.copies.specs.inner.Copies.{Copies};

use terms::Row;

// A row, from the row that it names first: a cut of a cut is made one cut.
fn short_row(row: Row, named: Row) -> Row
    ensures { result ≡ short_in row named }
{
    if row.kind != terms::EXTRACT {
        return row;
    }
    if named.kind != terms::EXTRACT {
        return row;
    }
    Row {
        kind: terms::EXTRACT,
        a: named.a,
        b: row.b.wrapping_add(named.c),
        c: row.c.wrapping_add(named.c),
    }
}

// Stores row r of a table, of 512 rows.
fn store_row(table: &mut [u16], r: usize, row: Row)
    ensures { table.new ≡ stored_row table.old (min r 512) row }
{
    let at = r.min(terms::MAX_ROWS) * 4;
    numbers::store_four(table, at, row.kind, row.a, row.b, row.c);
}

// Copies the first 512 rows of a table, each cut of a cut made one cut. How many numbers they are.
fn shorten(table: &[u16], short: &mut [u16]) -> usize
    ensures few { result ≤ 2048 }
    ensures rows { Shortens table.now (length short.old) short.new result }
{
    let rows = (table.len() / 4).min(terms::MAX_ROWS);
    for r in 0..rows {
        let row = rows::row_at(table, r);
        let named = rows::row_at(short, usize::from(row.a));
        store_row(short, r, short_row(row, named));
    }
    rows * 4
}

// Whether a row is an equation of a line.
fn of_line(row: Row, line: u16) -> bool
    ensures { result ≡ of_line line row }
{
    row.kind == terms::EQUATION && row.c == line
}

// Whether an equation of a line stands at row `from` or behind it.
fn has_line(table: &[u16], from: usize, line: u16) -> bool
    ensures { result ≡ some_row (of_line line) (drop from (rows_of table.now)) }
{
    for i in from..table.len() / 4 {
        if of_line(rows::row_at(table, i), line) {
            return true;
        }
    }
    false
}

// Whether row r is an equation with a line number that a later equation has too.
fn is_revised(table: &[u16], r: usize) -> bool
    ensures { result ≡ revised (row_at (rows_of table.now) r) (drop (suc r) (rows_of table.now)) }
{
    let row = rows::row_at(table, r);
    if row.kind != terms::EQUATION {
        return false;
    }
    row.c != 0 && has_line(table, r + 1, row.c)
}

// Leaves off row r, if it is a revised equation: the row that says nothing is stored over it.
fn leave_off(table: &mut [u16], r: usize)
    ensures { LeavesOff table.old r table.new }
{
    if is_revised(table, r) {
        store_row(
            table,
            r,
            Row {
                kind: terms::EQUATION,
                a: 0,
                b: 0,
                c: 0,
            },
        );
    }
}

// Leaves off each revised equation of a table, of at most 512 rows.
fn leave_off_revised(table: &mut [u16])
    ensures { LeavesOffRevised table.old table.new }
{
    let rows = (table.len() / 4).min(terms::MAX_ROWS);
    for r in 0..rows {
        leave_off(table, r);
    }
}

// The copy of a table, of at most 512 rows: how many numbers of the buffer it is.
pub fn copy(table: &[u16], short: &mut [u16]) -> usize
    ensures within { result ≤ length short.old }
    ensures rows { Copies table.now (length short.old) short.new result }
{
    let len = shorten(table, short).min(short.len());
    leave_off_revised(&mut short[..len]);
    len
}
