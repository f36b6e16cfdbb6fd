// A step on a job tried (document 02, (viii)): the job is read (crate states), and the equation of its next row taken over the classes of
// those before it. Nothing that is lent for good is written.
#![tactic(auto)]

ghost use Rattle.std.specs.Prelude.{◌≡◌, cond, ◌/◌, ◌<◌, eqb, length};
ghost use Rattle.steps.specs.inner.Steps.{next_row, StepsFrom, TriesStep};

use jobs::Job;
use records::Refusal;
use terms::Record;

// What a call on a job yields: the record, and the job as it is then.
#[derive(Clone, Copy)]
pub struct Step {
    pub found: Record,
    pub job: Job,
}

// The row at which taking ended, where it was to end at row `to`: all rows, if it got there.
fn end_row(row: usize, to: usize, rows: usize) -> usize
    ensures { result ≡ cond (eqb row to) rows row }
{
    if row == to { rows } else { row }
}

// The next row after the equation of row r, where taking it ended at a row: NEVER, if it ended at r.
fn next_row(table: &[u16], r: usize, row: usize) -> u32
    requires { r < length table.now / 4 }
    ensures { result ≡ next_row table.now r row }
{
    if row == r {
        return states::NEVER;
    }
    numbers::short(sides::next_equation(table, r + 1, table.len() / 4))
}

// Takes the equation of row r, over the classes of those before it: the record, the next row and the ties then.
fn step_from(
    table: &[u16],
    short: &[u16],
    widths: &[u16],
    places: &[u16],
    bits: usize,
    r: usize,
    ties: u32,
    left: &mut [u16],
    right: &mut [u16],
    links: &mut [u16],
) -> Step
    requires { r < length table.now / 4 }
    ensures { StepsFrom table.now short.now widths.now places.now bits r ties (length left.old) (length right.old) links.old links.new result.found result.job.next result.job.ties }
{
    let taken = states::take_on(table, short, widths, places, r, r + 1, left, right, links);
    let all = ties as usize + taken.ties.min(65536);
    let row = end_row(taken.row, r + 1, table.len() / 4);
    Step {
        found: solver::conclude(table, bits, row, all, links, &mut []),
        job: Job {
            next: next_row(table, r, taken.row),
            ties: numbers::short(all),
        },
    }
}

// What a step on a job would yield: nothing that is lent for good is written. For outcomes 0 and 2 the links have the classes then.
pub fn try_step(
    table: &[u16],
    widths: &[u16],
    places: &[u16],
    bits: usize,
    job: Job,
    work: &[u16],
    links: &mut [u16],
) -> Step
    ensures { TriesStep table.now widths.now places.now bits job.next job.ties work.now links.old links.new result.found result.job.next result.job.ties }
{
    let mut short = [0u16; 2048];
    let mut left = [0u16; 4096];
    let mut right = [0u16; 4096];
    let rows = table.len() / 4;
    let len = copies::copy(table, &mut short[..]);
    let Some(r) = states::read_state(
        table,
        &short[..len],
        widths,
        places,
        job,
        work,
        &mut left[..],
        &mut right[..],
        links,
    ) else {
        return Step {
            found: Refusal::NoJob.record(),
            job,
        };
    };
    if job.next == states::NEVER {
        let found = solver::conclude(table, bits, r, job.ties as usize, links, &mut []);
        return Step { found, job };
    }
    if rows <= r {
        return Step {
            found: Refusal::Ended.record(),
            job,
        };
    }
    step_from(
        table,
        &short[..len],
        widths,
        places,
        bits,
        r,
        job.ties,
        &mut left[..],
        &mut right[..],
        links,
    )
}
