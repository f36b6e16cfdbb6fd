// The solver (document 01, "The solver's answer"). The classes of a table's bits (crate linking) give the answer's rows (borders), and these
// their homes (homes).
#![tactic(auto)]

ghost use Rattle.std.specs.Prelude.{◌≡◌, ◌+◌, ◌≤◌, suc, length};
ghost use Rattle.records.specs.Refusals.{record_of};
ghost use Rattle.answers.specs.Solve.{solve_record, answer_after, work_after};
ghost use Rattle.solver.specs.inner.Call.{Concludes, AnswersTaken, AnswersTable};

use records::Refusal;
use terms::Record;

// The record of the equations that were taken, and for outcome 2 the answer's rows, four numbers each, as far as the answer table lent reaches:
// with none the record is the same. Of the table its variables and the number of its rows are read.
pub fn conclude(
    table: &[u16],
    bits: usize,
    row: usize,
    ties: usize,
    links: &[u16],
    answer: &mut [u16],
) -> Record
    ensures { Concludes table.now bits row ties links.now answer.old answer.new result }
{
    if row < table.len() / 4 {
        return Record {
            outcome: 1,
            ties: numbers::short(ties),
            row: numbers::short(row),
            ..records::complete(0, 0)
        };
    }
    if ties == 0 {
        return records::complete(0, numbers::short(bits));
    }
    let counts = borders::put_rows(table, links, answer);
    Record {
        outcome: 2,
        pieces: numbers::short(counts.pieces),
        fresh: numbers::short(counts.fresh),
        free: numbers::short(bits.saturating_sub(ties)),
        ties: numbers::short(ties),
        row: 0,
    }
}

// The same, and then for outcome 2 the homes of the rows. The first rows of the fresh pieces are kept in `firsts`.
pub fn answer_taken(
    table: &[u16],
    bits: usize,
    row: usize,
    ties: usize,
    links: &[u16],
    firsts: &mut [u16],
    answer: &mut [u16],
) -> Record
    ensures { AnswersTaken table.now bits row ties links.now (length firsts.old) answer.old answer.new result }
{
    let found = conclude(table, bits, row, ties, links, answer);
    if found.outcome == 2 {
        homes::put_homes(answer, found.pieces as usize, firsts);
    }
    found
}

// The answer of an accepted table, from the classes of its bits.
fn answer_table(
    table: &[u16],
    widths: &[u16],
    places: &[u16],
    bits: usize,
    links: &mut [u16],
    form: &mut [u16],
    answer: &mut [u16],
) -> Record
    ensures { length links.old ≡ suc (suc bits) → AnswersTable table.now widths.now places.now bits (length form.old) answer.old answer.new result }
{
    let taken = linking::table_classes(table, widths, places, form, links);
    answer_taken(table, bits, taken.row, taken.ties, links, form, answer)
}

// The same with room for so many links: each of them is set to 0 first, so a small table has few.
fn answer_in<const LINKS: usize>(
    table: &[u16],
    widths: &[u16],
    places: &[u16],
    bits: usize,
    form: &mut [u16],
    answer: &mut [u16],
) -> Record
    requires in_bounds { LINKS ≤ 4098 }
    ensures { bits + 2 ≤ LINKS → AnswersTable table.now widths.now places.now bits (length form.old) answer.old answer.new result }
{
    let mut links = [0u16; LINKS];
    let sources = bits.saturating_add(2).min(LINKS);
    answer_table(
        table,
        widths,
        places,
        bits,
        &mut links[..sources],
        form,
        answer,
    )
}

// The answer of a table that was checked and placed: one of at most 128 variable bits is small.
pub fn solve_placed(
    table: &[u16],
    widths: &[u16],
    places: &[u16],
    bits: usize,
    form: &mut [u16],
    answer: &mut [u16],
) -> Record
    ensures { AnswersTable table.now widths.now places.now bits (length form.old) answer.old answer.new result }
{
    if bits <= 128 {
        answer_in::<130>(table, widths, places, bits, form, answer)
    } else {
        answer_in::<4098>(table, widths, places, bits, form, answer)
    }
}

// A way to answer a table that was checked and placed.
pub trait Solving {
    fn answer(
        table: &[u16],
        widths: &[u16],
        places: &[u16],
        bits: usize,
        form: &mut [u16],
        answer: &mut [u16],
    ) -> Record
        ensures { AnswersTable table.now widths.now places.now bits (length form.old) answer.old answer.new result };
}

// The way of this crate: the classes of single bits.
pub struct BitByBit;

impl Solving for BitByBit {
    fn answer(
        table: &[u16],
        widths: &[u16],
        places: &[u16],
        bits: usize,
        form: &mut [u16],
        answer: &mut [u16],
    ) -> Record {
        solve_placed(table, widths, places, bits, form, answer)
    }
}

// How many numbers the answer table has at least, and how many the work area.
pub const ANSWER: usize = 24576;

pub const MEMORY: usize = 16384;

// Solves a table in one of the ways: the record, or why the call stops, for outcome 2 the answer table, and a work area that is 0 again.
fn try_solve<S: Solving>(
    table: &[u16],
    answer: &mut [u16],
    work: &mut [u16],
) -> Result<Record, Refusal>
    ensures record { record_of result ≡ solve_record table.now (length answer.old) (length work.old) }
    ensures answer { answer.new ≡ answer_after table.now answer.old (length work.old) }
    ensures work { work.new ≡ work_after table.now (length answer.old) work.old }
{
    if answer.len() < ANSWER {
        return Err(Refusal::Room);
    }
    if work.len() < MEMORY {
        return Err(Refusal::Room);
    }
    let mut widths = [0u16; 512];
    let mut places = [0u16; 578];
    checker::check_and_place(table, &mut widths, &mut places)?;
    let bits = usize::from(places[checker::BITS]);
    let found = S::answer(table, &widths, &places, bits, work, answer);
    work.fill(0);
    Ok(found)
}

// The same, with the record of where it stops.
pub fn solve_by<S: Solving>(table: &[u16], answer: &mut [u16], work: &mut [u16]) -> Record
    ensures record { result ≡ solve_record table.now (length answer.old) (length work.old) }
    ensures answer { answer.new ≡ answer_after table.now answer.old (length work.old) }
    ensures work { work.new ≡ work_after table.now (length answer.old) work.old }
{
    try_solve::<S>(table, answer, work).unwrap_or_else(Refusal::record)
}

// Solves a table bit by bit.
pub fn solve(table: &[u16], answer: &mut [u16], work: &mut [u16]) -> Record
    ensures record { result ≡ solve_record table.now (length answer.old) (length work.old) }
    ensures answer { answer.new ≡ answer_after table.now answer.old (length work.old) }
    ensures work { work.new ≡ work_after table.now (length answer.old) work.old }
{
    solve_by::<BitByBit>(table, answer, work)
}
