// The pages of a result sheet for the panel folder (document 02, request (iv)). A line is made by value and put behind the lines before it.
#![tactic(auto)]

ghost use Rattle.std.specs.Prelude.{◌≡◌, [], ◌<◌, get_or};
ghost use Rattle.sheets.specs.Writing.{digits};
ghost use Rattle.sheets.specs.inner.Printed.{printed_in};
ghost use Rattle.result_sheets.specs.Page.{cell, names_line, piece_line, outcome_line, blank_line, page_lines, page_text};
ghost use Rattle.pages.specs.inner.Lines.{four_cells, listed_count, pages_of};

use answers::AnswerRow;
use result_sheets::Page;
use terms::Record;

// The bytes of a line of a page, and of a column in it; how many lines a page has, and how many of them below the names.
const LINE: usize = 41;

const COLUMN: usize = 10;

const LINES: usize = 60;

const ON_PAGE: usize = 59;

// The outcome with which there are pieces.
const SOLVED: u32 = 2;

// A number, right-aligned in a column: its digits from the last on.
fn number_cell(n: u32) -> [u8; COLUMN]
    ensures { result ≡ cell (digits 10 n) }
{
    let mut bytes = [sheets::SPACE; COLUMN];
    let mut rest = n;
    for at in (0..COLUMN).rev() {
        bytes[at] = b'0' + (rest % 10) as u8;
        rest = rest / 10;
        if rest == 0 {
            break;
        }
    }
    bytes
}

// A line of four columns.
fn four_cells(
    first: [u8; COLUMN],
    second: [u8; COLUMN],
    third: [u8; COLUMN],
    fourth: [u8; COLUMN],
) -> [u8; LINE]
    ensures { result ≡ four_cells first second third fourth }
{
    let mut line = [sheets::NEWLINE; LINE];
    let out = &mut line[..];
    let one = writer::put_bytes(&first[..], out, 0);
    let two = writer::put_bytes(&second[..], out, one);
    let three = writer::put_bytes(&third[..], out, two);
    writer::put_bytes(&fourth[..], out, three);
    line
}

// The line of the names.
fn names_line() -> [u8; LINE]
    ensures { result ≡ names_line }
{
    four_cells(
        *b"  variable",
        *b"      kind",
        *b"     width",
        *b"     fresh",
    )
}

// The line of a piece.
fn piece_line(row: AnswerRow) -> [u8; LINE]
    ensures { result ≡ piece_line row }
{
    let variable = number_cell(u32::from(row.variable));
    let kind = number_cell(u32::from(row.kind));
    let width = number_cell(u32::from(row.width));
    let fresh = number_cell(u32::from(row.fresh));
    four_cells(variable, kind, width, fresh)
}

// The line of an outcome other than 2.
fn outcome_line(outcome: u32) -> [u8; LINE]
    ensures { result ≡ outcome_line outcome }
{
    let blank = [sheets::SPACE; COLUMN];
    four_cells(number_cell(outcome), blank, blank, blank)
}

// A line of blanks.
fn blank_line() -> [u8; LINE]
    ensures { result ≡ blank_line }
{
    let blank = [sheets::SPACE; COLUMN];
    four_cells(blank, blank, blank, blank)
}

// How many lines there are below the names, of all pages together, where so many whole rows are lent.
fn listed_count(found: Record, rows: usize) -> usize
    ensures { result ≡ listed_count found rows }
{
    if found.outcome != SOLVED {
        return 1;
    }
    (found.pieces as usize).min(rows)
}

// How many pages there are for so many lines.
fn page_count(listed: usize) -> usize
    ensures { result ≡ pages_of listed }
{
    1 + listed.saturating_sub(1) / ON_PAGE
}

// Line `line` of a page. It is a function of its own when it runs too: inlined, the compiler keeps the bytes of a line one by one, which takes longer.
#[inline(never)]
fn line_at(found: Record, answer: &[u16], number: usize, line: usize) -> [u8; LINE]
    requires { line < 60 }
    ensures { result ≡ get_or (page_lines found answer.now number) line [] }
{
    let listed = listed_count(found, answer.len() / answers::ROW);
    if page_count(listed) <= number {
        return blank_line();
    }
    if line == 0 {
        return names_line();
    }
    let i = number * ON_PAGE + (line - 1);
    if listed <= i {
        return blank_line();
    }
    if found.outcome != SOLVED {
        return outcome_line(found.outcome);
    }
    piece_line(answer_table::row_at(answer, i))
}

// Writes the lines of a page to a buffer, if there is room for a page.
fn put_lines(found: Record, answer: &[u16], number: usize, out: &mut [u8])
    ensures { out.new ≡ printed_in 2460 out.old 0 (page_text found answer.now number) }
{
    if out.len() < result_sheets::BYTES {
        return;
    }
    let mut at = 0;
    for line in 0..LINES {
        let bytes = line_at(found, answer, number, line);
        at = writer::put_bytes(&bytes[..], out, at);
    }
}

// A page by its number.
pub fn make_page(found: Record, answer: &[u16], number: usize) -> Page
    ensures bytes { result.bytes ≡ page_text found answer.now number }
{
    let mut bytes = [sheets::SPACE; result_sheets::BYTES];
    put_lines(found, answer, number, &mut bytes[..]);
    Page { bytes }
}
