// A run of row records as the numbers of a table (document 01: the table is lent as a run of row records of four
// 16-bit numbers). The records are copied into a buffer of numbers, four for each, and the calls work on those.
#![tactic(auto)]

ghost use Rattle.std.specs.Prelude.{◌≡◌, length, ◌+◌, ◌-◌};
ghost use Rattle.laws.specs.Buffers.{overwrite};
ghost use Rattle.rows.specs.inner.Held.{held, fitting, put_whole};
ghost use Rattle.terms.specs.Table.{rows_of, row_at};

use terms::Row;

// The numbers of the area to which calls copy rows: 513 rows, one more than a table may have.
pub const AREA: usize = 2052;

// A row of the table, all 0 past its end.
pub fn row_at(table: &[u16], r: usize) -> Row
    ensures { result ≡ row_at (rows_of table.now) r }
{
    if table.len() / 4 <= r {
        return Row {
            kind: 0,
            a: 0,
            b: 0,
            c: 0,
        };
    }
    let at = r * 4;
    Row {
        kind: table[at],
        a: table[at + 1],
        b: table[at + 2],
        c: table[at + 3],
    }
}

// How many of n rows a buffer of so many numbers holds whole.
fn fit(n: usize, room: usize) -> usize
    ensures { result ≡ fitting n room }
{
    if n < room / 4 { n } else { room / 4 }
}

// Writes row k of a table, where there is room for it.
fn put_row(table: &mut [u16], k: usize, row: Row)
    ensures { table.new ≡ put_whole table.old k row }
{
    if k < table.len() / 4 {
        numbers::store_four(table, k * 4, row.kind, row.a, row.b, row.c);
    }
}

// Copies the rows that the buffer holds to its beginning, and says how many numbers they are.
pub fn flatten(rows: &[Row], flat: &mut [u16]) -> usize
    ensures count { result ≡ length (held rows.now (length flat.old)) }
    ensures numbers { flat.new ≡ overwrite (held rows.now (length flat.old)) flat.old }
{
    let n = fit(rows.len(), flat.len());
    for i in 0..n {
        put_row(flat, i, rows[i]);
    }
    n * 4
}
