// An answer's rows (document 01, "The solver's answer"), from the classes of its bits. The places where a variable begins are marked, and
// the representatives whose places have different neighbours; then one pass over the places writes the rows, four numbers each.
#![tactic(auto)]

ghost use Rattle.std.specs.Prelude.{◌≡◌, cond, suc, min, ◌≤◌, eqb, length};
ghost use Rattle.borders.specs.inner.Rows.{PutsRows};
ghost use Rattle.borders.specs.inner.Borders.{MarksBegins, beside_in, uneven_with, MarksUneven, goes_in, number_in, step_in, row_written, PutsPlaces, PutsWith};

use answers::AnswerRow;

// How many rows an answer has, and how many fresh pieces.
#[derive(Clone, Copy)]
pub struct Counts {
    pub pieces: usize,
    pub fresh: usize,
}

// The last row so far, and the counts of the places passed: variables that began, rows, and fresh pieces that appeared.
#[derive(Clone, Copy, Default)]
pub struct Progress {
    pub begun: u16,
    pub rows: u16,
    pub fresh: u16,
    pub variable: u16,
    pub kind: u16,
    pub width: u16,
    pub number: u16,
}

// Marks each place where a variable begins, and the end of the last one; how many places there are.
pub fn mark_begins(table: &[u16], marks: &mut [u16]) -> u16
    ensures { MarksBegins table.now marks.old marks.new result }
{
    let mut bits = 0;
    for r in 0..terms::MAX_ROWS.min(table.len() / 4) {
        numbers::store(marks, bits, 1);
        bits += rules::row_bits(rows::row_at(table, r)) as usize;
    }
    numbers::store(marks, bits, 1);
    numbers::narrow(bits)
}

// The representative of the neighbour of place k: side 0 the place before it, side 1 the place after it; 0 where a variable begins
// between the two.
// Kept: the new form is no plainer, since the side is added to the place: an enum would be turned back to 0 or 1 first.
fn beside(marks: &[u16], links: &[u16], side: u16, k: u16) -> u16
    ensures { result ≡ beside_in marks.now links.now side k }
{
    let at = usize::from(k) + usize::from(side);
    if numbers::load(marks, at) == 0 {
        numbers::load(links, at + usize::from(side) + 1)
    } else {
        0
    }
}

// Marks the representative of place k if its lowest place has another neighbour than place k.
pub fn mark_place(marks: &[u16], links: &[u16], side: u16, k: u16, uneven: &mut [u16])
    ensures { uneven.new ≡ uneven_with marks.now links.now side k uneven.old }
{
    let r = numbers::load(links, usize::from(k) + 2);
    let low = r.saturating_sub(2);
    if low != k && beside(marks, links, side, k) != beside(marks, links, side, low) {
        numbers::store(uneven, usize::from(r), 1);
    }
}

// Marks each representative whose places have different neighbours on one side.
fn mark_uneven(marks: &[u16], links: &[u16], side: u16, n: u16, uneven: &mut [u16])
    ensures { MarksUneven marks.now links.now side n uneven.old uneven.new }
{
    for k in 0..n {
        mark_place(marks, links, side, k, uneven);
    }
}

// Whether place i goes on with the row of the place before it.
pub fn goes_on(marks: &[u16], links: &[u16], after: &[u16], before: &[u16], i: u16) -> bool
    ensures { result ≡ goes_in marks.now links.now after.now before.now i }
{
    let at = usize::from(i);
    if numbers::load(marks, at) != 0 {
        return false;
    }
    let a = numbers::load(links, at + 1);
    let b = numbers::load(links, at + 2);
    if b < 2 {
        return a == b;
    }
    2 <= a
        && numbers::load(after, usize::from(a)) == 0
        && numbers::load(before, usize::from(b)) == 0
}

// 1 for a place that is its own representative.
fn own(r: u16, i: u16) -> u16
    ensures { result ≡ cond (eqb r (suc (suc i))) 1 0 }
{
    u16::from(usize::from(r) == usize::from(i) + 2)
}

// The number of the fresh piece that begins at a place with representative r.
fn number_of(numbers: &[u16], r: u16) -> u16
    ensures { result ≡ number_in numbers.now r }
{
    if r < 2 {
        0
    } else {
        numbers::load(numbers, usize::from(r - 2))
    }
}

// One place more: the last row goes on, or a row begins.
pub fn step(
    marks: &[u16],
    links: &[u16],
    numbers: &[u16],
    on: bool,
    p: Progress,
    i: u16,
) -> Progress
    ensures { result ≡ step_in marks.now links.now numbers.now on p i }
{
    let at = usize::from(i);
    let begun = p.begun.wrapping_add(numbers::load(marks, at));
    if on {
        return Progress {
            begun,
            width: p.width.wrapping_add(1),
            ..p
        };
    }
    let r = numbers::load(links, at + 2);
    Progress {
        begun,
        rows: p.rows.wrapping_add(1),
        fresh: p.fresh.wrapping_add(own(r, i)),
        variable: begun.saturating_sub(1),
        kind: r.min(2),
        width: 1,
        number: number_of(numbers, r),
    }
}

// Writes the last row, if there is one.
pub fn put_row(answer: &mut [u16], p: Progress)
    ensures { answer.new ≡ row_written answer.old p }
{
    if p.rows == 0 {
        return;
    }
    let row = AnswerRow {
        variable: p.variable,
        kind: p.kind,
        width: p.width,
        fresh: p.number,
    };
    answer_table::put_four(answer, p.rows - 1, row);
}

// Writes the last row, unless it goes on.
pub fn end_row(answer: &mut [u16], on: bool, p: Progress)
    ensures { answer.new ≡ cond on answer.old (row_written answer.old p) }
{
    if !on {
        put_row(answer, p);
    }
}

// Writes the rows of n places. `numbers` has afterwards, for each place, how many fresh pieces appear before it.
fn put_places(
    marks: &[u16],
    links: &[u16],
    after: &[u16],
    before: &[u16],
    n: u16,
    numbers: &mut [u16],
    answer: &mut [u16],
) -> Counts
    ensures { PutsPlaces n marks.now links.now after.now before.now numbers.old answer.old answer.new result.pieces result.fresh }
{
    let mut p = Progress::default();
    for i in 0..n {
        numbers::store(numbers, usize::from(i), p.fresh);
        let on = goes_on(marks, links, after, before, i);
        end_row(answer, on, p);
        p = step(marks, links, numbers, on, p, i);
    }
    put_row(answer, p);
    Counts {
        pieces: usize::from(p.rows),
        fresh: usize::from(p.fresh),
    }
}

// Writes the rows, with the help of lists that have a number for each source.
fn put_with(
    table: &[u16],
    links: &[u16],
    marks: &mut [u16],
    after: &mut [u16],
    before: &mut [u16],
    numbers: &mut [u16],
    answer: &mut [u16],
) -> Counts
    ensures { PutsWith table.now links.now marks.old after.old before.old (length numbers.old) answer.old answer.new result.pieces result.fresh }
{
    let n = mark_begins(table, marks);
    mark_uneven(marks, links, 1, n, after);
    mark_uneven(marks, links, 0, n, before);
    put_places(marks, links, after, before, n, numbers, answer)
}

// The sources of a small table, at most: the two fixed bits and 128 places.
const FEW: usize = 130;

// The sources of any table, at most.
const ALL: usize = 4098;

// Writes the rows of a table that has no more sources than this: a small one's lists are short, since each of their numbers is set to 0 first.
fn put_within<const SOURCES: usize>(table: &[u16], links: &[u16], answer: &mut [u16]) -> Counts
    requires { SOURCES ≤ 4098 }
    ensures { length links.now ≤ SOURCES → PutsRows table.now links.now answer.old answer.new result.pieces result.fresh }
{
    let mut marks = [0u16; SOURCES];
    let mut after = [0u16; SOURCES];
    let mut before = [0u16; SOURCES];
    let mut numbers = [0u16; SOURCES];
    put_with(
        table,
        links,
        &mut marks[..],
        &mut after[..],
        &mut before[..],
        &mut numbers[..],
        answer,
    )
}

// Writes the rows of an accepted table whose classes are given: each link is a source's representative.
pub fn put_rows(table: &[u16], links: &[u16], answer: &mut [u16]) -> Counts
    ensures { PutsRows table.now links.now answer.old answer.new result.pieces result.fresh }
{
    if links.len() <= FEW {
        put_within::<FEW>(table, links, answer)
    } else {
        put_within::<ALL>(table, links, answer)
    }
}
