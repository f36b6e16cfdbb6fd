// What is made of equations that were taken in whole runs (document 001, section 6): the record and the answer of crate solver, after a
// closing sweep in runs (run_sweep), and the answer's rows from runs (run_rows).
#![tactic(auto)]

ghost use Rattle.std.specs.Prelude.{length};
ghost use Rattle.run_answers.specs.inner.Answers.{ConcludesInRuns, AnswersInRuns};

use terms::Record;

// The record of the equations that were taken, and for outcome 2 the answer's rows, four numbers each, as far as the answer table lent reaches.
// Runs are swept only where there are rows to write: without ties each source links to itself already.
// Kept: a twin of crate solver's; shared it is no plainer, since the sweep and the rows between its parts take other lists (the runs)
fn conclude(
    table: &[u16],
    bits: usize,
    row: usize,
    ties: usize,
    links: &mut [u16],
    last: &mut [u16],
    first: &mut [u16],
    answer: &mut [u16],
) -> Record
    ensures { ConcludesInRuns table.now bits row ties links.old last.old first.old answer.old answer.new result }
{
    if row < table.len() / 4 {
        return Record {
            outcome: 1,
            ties: numbers::short(ties),
            row: numbers::short(row),
            ..records::complete(0, 0)
        };
    }
    if ties == 0 {
        return records::complete(0, numbers::short(bits));
    }
    run_sweep::settle(links, last, first);
    let counts = run_rows::put_rows(table, links, last, answer);
    Record {
        outcome: 2,
        pieces: numbers::short(counts.pieces),
        fresh: numbers::short(counts.fresh),
        free: numbers::short(bits.saturating_sub(ties)),
        ties: numbers::short(ties),
        row: 0,
    }
}

// The same, and then for outcome 2 the homes of the rows. The first rows of the fresh pieces are kept in `firsts`.
pub fn answer_taken(
    table: &[u16],
    bits: usize,
    row: usize,
    ties: usize,
    links: &mut [u16],
    last: &mut [u16],
    first: &mut [u16],
    firsts: &mut [u16],
    answer: &mut [u16],
) -> Record
    ensures { AnswersInRuns table.now bits row ties links.old last.old first.old (length firsts.old) answer.old answer.new result }
{
    let found = conclude(table, bits, row, ties, links, last, first, answer);
    if found.outcome == 2 {
        homes::put_homes(answer, found.pieces as usize, firsts);
    }
    found
}
