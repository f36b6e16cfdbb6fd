// The calls that a host links (include/linkwords.h): each is one line over the crate that does the work, and has its
// statement. A slice is a pointer and then a length.
#![tactic(auto)]

ghost use Rattle.std.specs.Prelude.{◌≡◌, length};
ghost use Rattle.terms.specs.Value.{value_record, value_after};
ghost use Rattle.forms.specs.Call.{form_record, form_after};
ghost use Rattle.terms.specs.Table.{row_numbers};
ghost use Rattle.sheets.specs.Call.{sheet_record, table_after};
ghost use Rattle.answers.specs.Solve.{solve_record, answer_after, work_after};
ghost use Rattle.answers.specs.RightSide.{right_side_start, right_side_length};
ghost use Rattle.assignments.specs.Matching.{make_record, make_after, make_work};
ghost use Rattle.windows.specs.Call.{positions_record, positions_after};
ghost use Rattle.recordings.specs.Call.{recordings_record};
ghost use Rattle.inclusion.specs.Call.{compare_record, compare_work};
ghost use Rattle.jobs.specs.Call.{open_record, open_job, open_work, step_record, step_job, step_work, job_answer_record, job_answer_after};
ghost use Rattle.result_sheets.specs.Page.{page_text};

use answers::Part;
use jobs::Job;
use result_sheets::Page;
use terms::{Record, Row};

// A row's value under a pattern.
#[unsafe(no_mangle)]
pub extern "C" fn lw_value(table: &[u16], row: usize, pattern: &[u8], value: &mut [u8]) -> Record
    ensures record { result ≡ value_record table.now row pattern.now (length value.old) }
    ensures value { value.new ≡ value_after table.now row pattern.now value.old }
{
    evaluator::value(table, row, pattern, value)
}

// The normal form of a row, four numbers for each piece.
#[unsafe(no_mangle)]
pub extern "C" fn lw_normal_form(table: &[u16], row: usize, form: &mut [u16]) -> Record
    ensures record { result ≡ form_record table.now row (length form.old) }
    ensures form { form.new ≡ form_after table.now row form.old }
{
    normalizer::normal_form(table, row, form)
}

// The table that a sheet describes.
#[unsafe(no_mangle)]
pub extern "C" fn lw_read_sheet(sheet: &[u8], table: &mut [u16]) -> Record
    ensures record { result ≡ sheet_record sheet.now (length table.old) }
    ensures table { table.new ≡ table_after sheet.now table.old }
{
    reader::read_sheet(sheet, table)
}

// Solves a table.
#[unsafe(no_mangle)]
pub extern "C" fn lw_solve(table: &[u16], answer: &mut [u16], work: &mut [u16]) -> Record
    ensures record { result ≡ solve_record table.now (length answer.old) (length work.old) }
    ensures answer { answer.new ≡ answer_after table.now answer.old (length work.old) }
    ensures work { work.new ≡ work_after table.now (length answer.old) work.old }
{
    solver::solve(table, answer, work)
}

// Solves a table in whole pieces: what `lw_solve` says of it, number by number.
#[unsafe(no_mangle)]
pub extern "C" fn lw_solve_pieces(table: &[u16], answer: &mut [u16], work: &mut [u16]) -> Record
    ensures record { result ≡ solve_record table.now (length answer.old) (length work.old) }
    ensures answer { answer.new ≡ answer_after table.now answer.old (length work.old) }
    ensures work { work.new ≡ work_after table.now (length answer.old) work.old }
{
    piecewise::solve(table, answer, work)
}

// Where the right side of a variable stands in an answer table.
#[unsafe(no_mangle)]
pub extern "C" fn lw_right_side(answer: &[u16], rows_in_use: usize, variable: usize) -> Part
    ensures start { result.start ≡ right_side_start answer.now rows_in_use variable }
    ensures len { result.len ≡ right_side_length answer.now rows_in_use variable }
{
    answer_table::right_part(answer, rows_in_use, variable)
}

// The pattern that the answer solved from a table gives at fresh bits.
#[unsafe(no_mangle)]
pub extern "C" fn lw_make_pattern(
    table: &[u16],
    answer: &[u16],
    fresh: &[u8],
    pattern: &mut [u8],
    work: &mut [u16],
) -> Record
    ensures record { result ≡ make_record table.now answer.now fresh.now (length pattern.old) (length work.old) }
    ensures pattern { pattern.new ≡ make_after table.now answer.now fresh.now pattern.old (length work.old) }
    ensures work { work.new ≡ make_work table.now answer.now fresh.now (length pattern.old) work.old }
{
    matcher::make_pattern(table, answer, fresh, pattern, work)
}

// The starts at which the words of a run meet a table.
#[unsafe(no_mangle)]
pub extern "C" fn lw_marker_positions(table: &[u16], words: &[u16], list: &mut [u32]) -> Record
    ensures record { result ≡ positions_record table.now words.now }
    ensures list { list.new ≡ positions_after table.now words.now list.old }
{
    positions::marker_positions(table, words, list)
}

// Two recordings of the same frames, compared by a table.
#[unsafe(no_mangle)]
pub extern "C" fn lw_compare_recordings(table: &[u16], sent: &[u16], received: &[u16]) -> Record
    ensures record { result ≡ recordings_record table.now sent.now received.now }
{
    merger::compare_recordings(table, sent, received)
}

// Compares two tables with the same variables by the patterns that meet them. They may be the same memory.
#[unsafe(no_mangle)]
pub extern "C" fn lw_compare_tables(first: &[u16], second: &[u16], work: &mut [u16]) -> Record
    ensures record { result ≡ compare_record first.now second.now (length work.old) }
    ensures work { work.new ≡ compare_work first.now second.now work.old }
{
    comparer::compare_tables(first, second, work)
}

// A page of the result sheet of a record and an answer table, by its number.
#[unsafe(no_mangle)]
pub extern "C" fn lw_page(found: Record, answer: &[u16], number: usize) -> Page
    ensures bytes { result.bytes ≡ page_text found answer.now number }
{
    pages::make_page(found, answer, number)
}

// The same calls on a table that is lent as row records. The records are copied as numbers into an area of 513 rows, one more than
// a table may have, and the call is made on those. Each says of all rows lent what the call on numbers says.

// A row's value under a pattern.
#[unsafe(no_mangle)]
pub extern "C" fn lw_value_rows(
    rows: &[Row],
    row: usize,
    pattern: &[u8],
    value: &mut [u8],
) -> Record
    ensures record { result ≡ value_record (row_numbers rows.now) row pattern.now (length value.old) }
    ensures value { value.new ≡ value_after (row_numbers rows.now) row pattern.now value.old }
{
    let mut flat = [0u16; rows::AREA];
    let used = rows::flatten(rows, &mut flat[..]);
    evaluator::value(&flat[..used], row, pattern, value)
}

// The normal form of a row, four numbers for each piece.
#[unsafe(no_mangle)]
pub extern "C" fn lw_normal_form_rows(rows: &[Row], row: usize, form: &mut [u16]) -> Record
    ensures record { result ≡ form_record (row_numbers rows.now) row (length form.old) }
    ensures form { form.new ≡ form_after (row_numbers rows.now) row form.old }
{
    let mut flat = [0u16; rows::AREA];
    let used = rows::flatten(rows, &mut flat[..]);
    normalizer::normal_form(&flat[..used], row, form)
}

// Solves a table.
#[unsafe(no_mangle)]
pub extern "C" fn lw_solve_rows(rows: &[Row], answer: &mut [u16], work: &mut [u16]) -> Record
    ensures record { result ≡ solve_record (row_numbers rows.now) (length answer.old) (length work.old) }
    ensures answer { answer.new ≡ answer_after (row_numbers rows.now) answer.old (length work.old) }
    ensures work { work.new ≡ work_after (row_numbers rows.now) (length answer.old) work.old }
{
    let mut flat = [0u16; rows::AREA];
    let used = rows::flatten(rows, &mut flat[..]);
    solver::solve(&flat[..used], answer, work)
}

// A job kept open: it is lent, and stored back as the call leaves it.

// Opens a job on a table.
#[unsafe(no_mangle)]
pub extern "C" fn lw_job_open(table: &[u16], job: &mut Job, work: &mut [u16]) -> Record
    ensures record { result ≡ open_record table.now (length work.old) }
    ensures next { job.new.next ≡ (open_job table.now job.old.next job.old.ties (length work.old)).next }
    ensures ties { job.new.ties ≡ (open_job table.now job.old.next job.old.ties (length work.old)).ties }
    ensures work { work.new ≡ open_work table.now work.old }
{
    let step = stepper::open_at(table, *job, work);
    *job = step.job;
    step.found
}

// Takes the next equation of a job.
#[unsafe(no_mangle)]
pub extern "C" fn lw_job_step(table: &[u16], job: &mut Job, work: &mut [u16]) -> Record
    ensures record { result ≡ step_record table.now job.old.next job.old.ties work.old }
    ensures next { job.new.next ≡ (step_job table.now job.old.next job.old.ties work.old).next }
    ensures ties { job.new.ties ≡ (step_job table.now job.old.next job.old.ties work.old).ties }
    ensures work { work.new ≡ step_work table.now job.old.next job.old.ties work.old }
{
    let step = stepper::step_at(table, *job, work);
    *job = step.job;
    step.found
}

// What the next step of a job would return.
#[unsafe(no_mangle)]
pub extern "C" fn lw_job_preview(table: &[u16], job: &Job, work: &[u16]) -> Record
    ensures record { result ≡ step_record table.now job.now.next job.now.ties work.now }
{
    stepper::preview_at(table, *job, work)
}

// The answer so far of a job.
#[unsafe(no_mangle)]
pub extern "C" fn lw_job_answer(
    table: &[u16],
    job: &Job,
    work: &[u16],
    answer: &mut [u16],
) -> Record
    ensures record { result ≡ job_answer_record table.now job.now.next job.now.ties work.now (length answer.old) }
    ensures answer { answer.new ≡ job_answer_after table.now job.now.next job.now.ties work.now answer.old }
{
    stepper::answer_at(table, *job, work, answer)
}
