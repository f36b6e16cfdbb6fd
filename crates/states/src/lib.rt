// A job and its work area read (document 02, (viii)): the equations before the next row are taken anew, from a copy of the table (crate
// copies), and compared: what these do not leave is no job of this table. Nothing but links and room is written.
#![tactic(auto)]

ghost use Rattle.std.specs.Prelude.{◌≡◌, length};
ghost use Rattle.terms.specs.Table.{rows_of};
ghost use Rattle.jobs.specs.Call.{has_line, breaks43};
ghost use Rattle.states.specs.inner.Prefixes.{TakesOn};
ghost use Rattle.states.specs.inner.Jobs.{Claims, ReadsState};

use jobs::Job;
use taking::Taken;
use terms::Row;

// The next row of a job in which no pattern is left.
// Kept: the C interface: a job's next row is a number that a host reads.
pub const NEVER: u32 = 1000;

// Whether a row is an equation with a line number.
fn has_line(row: Row) -> bool
    ensures { result ≡ has_line row }
{
    row.kind == terms::EQUATION && 0 < row.c
}

// Whether some row of a table is.
pub fn lined(table: &[u16]) -> bool
    ensures { result ≡ breaks43 (rows_of table.now) }
{
    for r in 0..table.len() / 4 {
        if has_line(rows::row_at(table, r)) {
            return true;
        }
    }
    false
}

// Takes the equations of a table's copy from row `from` on and below row `to`, over classes that the links hold; then each link is its
// source's representative again, unless two different fixed bits met.
pub fn take_on(
    table: &[u16],
    short: &[u16],
    widths: &[u16],
    places: &[u16],
    from: usize,
    to: usize,
    left: &mut [u16],
    right: &mut [u16],
    links: &mut [u16],
) -> Taken
    ensures { TakesOn table.now short.now widths.now places.now from to (length left.old) (length right.old) links.old links.new result.row result.ties }
{
    let lows = (terms::MAX_ROWS + 1).min(places.len());
    let taken = taking::take_equations(
        short,
        widths,
        places,
        &places[lows..],
        from,
        to,
        left,
        right,
        links,
    );
    if taken.row == to {
        classes::settle(links);
    }
    taken
}

// The row before which the equations of a job with this next row were taken: after a never the row at which no pattern is left. None if
// there is none such.
fn claimed_row(
    table: &[u16],
    short: &[u16],
    widths: &[u16],
    places: &[u16],
    next: u32,
    left: &mut [u16],
    right: &mut [u16],
    links: &mut [u16],
) -> Option<usize>
    ensures { Claims table.now short.now widths.now places.now next (length left.old) (length right.old) links.old result }
{
    let rows = table.len() / 4;
    if next == NEVER {
        linking::unlink(links);
        let taken = take_on(table, short, widths, places, 0, rows, left, right, links);
        return if taken.row < rows {
            Some(taken.row)
        } else {
            None
        };
    }
    let r = next as usize;
    if rows < r {
        return None;
    }
    if sides::next_equation(table, r, rows) == r {
        Some(r)
    } else {
        None
    }
}

// Reads a job and its work area: the row before which its equations were taken, with the classes of these in the links. None if they are no
// state.
pub fn read_state(
    table: &[u16],
    short: &[u16],
    widths: &[u16],
    places: &[u16],
    job: Job,
    work: &[u16],
    left: &mut [u16],
    right: &mut [u16],
    links: &mut [u16],
) -> Option<usize>
    ensures { ReadsState table.now short.now widths.now places.now job.next job.ties work.now (length left.old) (length right.old) links.old links.new result }
{
    let r = claimed_row(table, short, widths, places, job.next, left, right, links)?;
    linking::unlink(links);
    let taken = take_on(table, short, widths, places, 0, r, left, right, links);
    if taken.row != r {
        return None;
    }
    if taken.ties != job.ties as usize {
        return None;
    }
    if areas::is_area(links, work) {
        Some(r)
    } else {
        None
    }
}
