// Home and high bit of each answer row: the variable and the highest bit where its piece first appears. Rows of four numbers are widened
// to six from the last one back, each with its own place; then each later appearance of a fresh piece takes the two numbers of the first.
// The test of a table goes the same way and writes nothing.
#![tactic(auto)]

ghost use Rattle.std.specs.Prelude.{◌≡◌, ◌*◌, length};
ghost use Rattle.answers.specs.inner.FourNumbers.{answer_columns};
ghost use Rattle.homes.specs.inner.Homes.{width_on, row_put, Widens, home_in, home_copied, SetsHome, SetsHomes, PutsHomes, MarksFirst, MarksFirsts, home_fine, TestsRows, TestsHomes};

use answers::AnswerRow;

// The kind of a row with a fresh piece; a lower kind is a fill of that bit.
// Kept: the C interface: a row of the answer table is numbers, its kind among them.
const FRESH: u16 = 2;

// Row i of a table whose rows have four numbers. One test serves all four where the whole row is there.
fn four_at(answer: &[u16], i: u16) -> AnswerRow
    ensures { result ≡ answer_columns answer.now (i * 4) }
{
    let at = usize::from(i) * answers::FOUR;
    if answer.len() < at + answers::FOUR {
        return AnswerRow {
            variable: numbers::load(answer, at),
            kind: numbers::load(answer, at + 1),
            width: numbers::load(answer, at + 2),
            fresh: numbers::load(answer, at + 3),
        };
    }
    AnswerRow {
        variable: answer[at],
        kind: answer[at + 1],
        width: answer[at + 2],
        fresh: answer[at + 3],
    }
}

// Writes row i with its own place, its variable and its highest bit, as far as there is room. One test serves all six where all have room.
fn put_row(answer: &mut [u16], i: u16, row: AnswerRow, high: u16)
    ensures { answer.new ≡ row_put answer.old i row high }
{
    let at = usize::from(i) * answers::ROW;
    if answer.len() < at + answers::ROW {
        numbers::store_four(answer, at, row.variable, row.kind, row.width, row.fresh);
        numbers::store(answer, at + 4, row.variable);
        numbers::store(answer, at + 5, high);
        return;
    }
    answer[at] = row.variable;
    answer[at + 1] = row.kind;
    answer[at + 2] = row.width;
    answer[at + 3] = row.fresh;
    answer[at + 4] = row.variable;
    answer[at + 5] = high;
}

// The width of a row's variable from the row on, from that of the last row's variable behind it.
fn width_on(passed: u16, variable: u16, row: AnswerRow) -> u16
    ensures { result ≡ width_on passed variable row }
{
    if row.variable == variable {
        passed.wrapping_add(row.width)
    } else {
        row.width
    }
}

// Widens rows of four numbers to six, from the last one back: row i moves from 4 i to 6 i, never onto a row that is still to be read.
fn widen(answer: &mut [u16], rows: u16)
    ensures { Widens rows answer.old answer.new }
{
    let mut passed: u16 = 0;
    let mut variable: u16 = 0;
    for i in (0..rows).rev() {
        let row = four_at(answer, i);
        passed = width_on(passed, variable, row);
        variable = row.variable;
        put_row(answer, i, row, passed.saturating_sub(1));
    }
}

// The row where the piece of row i first appears: a fill's is its own.
fn home_row(firsts: &[u16], row: AnswerRow, i: u16) -> u16
    ensures { result ≡ home_in firsts.now row i }
{
    if row.kind < FRESH {
        i
    } else {
        numbers::load(firsts, usize::from(row.fresh))
    }
}

// Copies home and high bit of one row to another, as far as there is room.
fn copy_home(answer: &mut [u16], from: u16, to: u16)
    ensures { answer.new ≡ home_copied answer.old from to }
{
    if from == to {
        return;
    }
    let source = usize::from(from) * answers::ROW;
    let target = usize::from(to) * answers::ROW;
    let home = numbers::load(answer, source + 4);
    let high = numbers::load(answer, source + 5);
    numbers::store(answer, target + 4, home);
    numbers::store(answer, target + 5, high);
}

// Marks row i if its piece first appears there. How many fresh pieces have appeared then.
fn mark_first(firsts: &mut [u16], row: AnswerRow, seen: u16, i: u16) -> u16
    ensures { MarksFirst row i seen firsts.old firsts.new result }
{
    if row.kind < FRESH || row.fresh != seen {
        return seen;
    }
    numbers::store(firsts, usize::from(seen), i);
    seen.wrapping_add(1)
}

// Row i has its own place. It is marked if its piece first appears there, and gets home and high bit of the row where it does.
fn set_home(answer: &mut [u16], firsts: &mut [u16], row: AnswerRow, seen: u16, i: u16) -> u16
    ensures { SetsHome row i seen answer.old answer.new firsts.old firsts.new result }
{
    let more = mark_first(firsts, row, seen, i);
    let from = home_row(firsts, row, i);
    copy_home(answer, from, i);
    more
}

// Sets home and high bit of each row, where each has its own place. `firsts` gets the first row of each fresh piece.
fn set_homes(answer: &mut [u16], rows: u16, firsts: &mut [u16])
    ensures { SetsHomes rows answer.old answer.new (length firsts.old) }
{
    let mut seen: u16 = 0;
    for i in 0..rows {
        let row = answer_table::row_at(answer, usize::from(i));
        seen = set_home(answer, firsts, row, seen, i);
    }
}

// Writes home and high bit of each row of a table that has the rows' own four numbers.
pub fn put_homes(answer: &mut [u16], rows: usize, firsts: &mut [u16])
    ensures { PutsHomes rows answer.old answer.new (length firsts.old) }
{
    let count = numbers::narrow(rows);
    widen(answer, count);
    set_homes(answer, count, firsts);
}

// Marks the first row of each fresh piece.
fn mark_firsts(answer: &[u16], rows: u16, firsts: &mut [u16])
    ensures { MarksFirsts rows answer.now (length firsts.old) firsts.new }
{
    let mut seen: u16 = 0;
    for i in 0..rows {
        let row = answer_table::row_at(answer, usize::from(i));
        seen = mark_first(firsts, row, seen, i);
    }
}

// Whether home and high bit of row i are its own, if its piece first appears there, or else those of the row where it does.
fn home_fine(answer: &[u16], variable: u16, high: u16, from: u16, i: u16) -> bool
    ensures { result ≡ home_fine answer.now variable high from i }
{
    let at = usize::from(i) * answers::ROW;
    let source = usize::from(from) * answers::ROW;
    let home = numbers::load(answer, at + 4);
    let bit = numbers::load(answer, at + 5);
    if from == i {
        return home == variable && bit == high;
    }
    home == numbers::load(answer, source + 4) && bit == numbers::load(answer, source + 5)
}

// Tests home and high bit of each row, from the last one back.
fn rows_fine(answer: &[u16], rows: u16, firsts: &[u16]) -> bool
    ensures { TestsRows rows answer.now firsts.now result }
{
    let mut passed: u16 = 0;
    let mut variable: u16 = 0;
    for i in (0..rows).rev() {
        let row = answer_table::row_at(answer, usize::from(i));
        passed = width_on(passed, variable, row);
        variable = row.variable;
        let from = home_row(firsts, row, i);
        if !home_fine(answer, variable, passed.saturating_sub(1), from, i) {
            return false;
        }
    }
    true
}

// Whether home and high bit of every row of an answer table are right, where the rows are of the form.
pub fn homes_fine(answer: &[u16], firsts: &mut [u16]) -> bool
    ensures { TestsHomes answer.now (length firsts.old) result }
{
    let count = numbers::narrow(answer.len() / answers::ROW);
    mark_firsts(answer, count, firsts);
    rows_fine(answer, count, firsts)
}
