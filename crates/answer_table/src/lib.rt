// The answer table as numbers: a row read, its own four numbers written, and the right side of a variable as a part of the table.
#![tactic(auto)]

ghost use Rattle.std.specs.Prelude.{◌≡◌, drop};
ghost use Rattle.answers.specs.RightSide.{row_variables, rows_on, right_side_start, right_side_length, right_side};
ghost use Rattle.answers.specs.Answer.{answer_rows_of, answer_row_at};
ghost use Rattle.answer_table.specs.inner.Rows.{four_put, first_of};

use answers::{AnswerRow, Part};

// Row i of an answer table, all 0 past its end.
// Kept: the row of all 0, and no Option, since answer_row_at says so.
pub fn row_at(answer: &[u16], i: usize) -> AnswerRow
    ensures { result ≡ answer_row_at (answer_rows_of answer.now) i }
{
    if answer.len() / answers::ROW <= i {
        return AnswerRow {
            variable: 0,
            kind: 0,
            width: 0,
            fresh: 0,
        };
    }
    let at = i * answers::ROW;
    AnswerRow {
        variable: answer[at],
        kind: answer[at + 1],
        width: answer[at + 2],
        fresh: answer[at + 3],
    }
}

// Writes the own four numbers of row i, before any row has its home and high bit, as far as there is room.
pub fn put_four(answer: &mut [u16], i: u16, row: AnswerRow)
    ensures { answer.new ≡ four_put answer.old i row }
{
    let at = usize::from(i) * answers::FOUR;
    numbers::store_four(answer, at, row.variable, row.kind, row.width, row.fresh);
}

// The first row of a variable, if there is one. Not inlined, its loop counts the places of rows alone, and not also where they stand.
#[inline(never)]
fn first_row(used: &[u16], variable: usize) -> Option<usize>
    ensures { result ≡ first_of variable (row_variables used.now) }
{
    for i in 0..used.len() / answers::ROW {
        if usize::from(row_at(used, i).variable) == variable {
            return Some(i);
        }
    }
    None
}

// How many rows of a variable follow directly, from one row on.
fn rows_on(used: &[u16], variable: usize, first: usize) -> usize
    ensures { result ≡ rows_on variable (drop first (row_variables used.now)) }
{
    let end = used.len() / answers::ROW;
    for i in first..end {
        if usize::from(row_at(used, i).variable) != variable {
            return i - first;
        }
    }
    end.saturating_sub(first)
}

// Where the right side of a variable stands in an answer table of which so many rows are in use.
pub fn right_part(answer: &[u16], rows: usize, variable: usize) -> Part
    ensures start { result.start ≡ right_side_start answer.now rows variable }
    ensures len { result.len ≡ right_side_length answer.now rows variable }
{
    if answer.len() / answers::ROW < rows {
        return Part { start: 0, len: 0 };
    }
    let used = &answer[..rows * answers::ROW];
    let Some(first) = first_row(used, variable) else {
        return Part { start: 0, len: 0 };
    };
    let count = rows_on(used, variable, first);
    Part {
        start: first * answers::ROW,
        len: count * answers::ROW,
    }
}

// The right side of a variable, as a part of the caller's answer table.
pub fn right_side<'a>(answer: &'a [u16], rows: usize, variable: usize) -> &'a [u16]
    ensures { result.now ≡ right_side answer.now rows variable }
{
    let part = right_part(answer, rows, variable);
    &answer[part.start..part.start + part.len]
}
