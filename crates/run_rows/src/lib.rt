// An answer's rows from classes in whole runs (document 01, "The solver's answer"): what crate borders does place by place is done at the ends
// of runs, and the places of a run that go on with a row are passed at once.
#![tactic(auto)]

ghost use Rattle.std.specs.Prelude.{◌≡◌, true, ◌≤◌, max, length};
ghost use Rattle.run_rows.specs.inner.Wide.{wider};
ghost use Rattle.run_rows.specs.inner.Lined.{MarksRun, MarksRuns, IsClear, AllClear, Stretches, PutsInRuns, PutsWithRuns, PutsRowsInRuns};

use borders::{Counts, Progress};

// Marks representatives by the places of a run from k to t: the first two and the last one tell it for all of them.
fn mark_run(marks: &[u16], links: &[u16], side: u16, k: u16, t: u16, uneven: &mut [u16])
    ensures { MarksRun marks.now links.now side k t uneven.old uneven.new }
{
    borders::mark_place(marks, links, side, k, uneven);
    if t <= k {
        return;
    }
    let second = k.wrapping_add(1);
    if t == second {
        borders::mark_place(marks, links, side, t, uneven);
        return;
    }
    borders::mark_place(marks, links, side, second, uneven);
    borders::mark_place(marks, links, side, t, uneven);
}

// Marks each representative whose places have different neighbours on one side.
fn mark_runs(marks: &[u16], links: &[u16], last: &[u16], side: u16, n: u16, uneven: &mut [u16])
    ensures { MarksRuns marks.now links.now last.now side n uneven.old uneven.new }
{
    let mut k: u16 = 0;
    // Kept: a `while`, since it goes from run to run, on by a found length
    while k < n {
        let end = numbers::load(last, usize::from(k) + 2).saturating_sub(2);
        let t = k.max(end.min(n - 1));
        mark_run(marks, links, side, k, t, uneven);
        k = t + 1;
    }
}

// Whether a representative has no mark behind it, and the next one none before. A no is never wrong, and only slower.
fn one_clear(after: &[u16], before: &[u16], r: usize) -> bool
    ensures { result ≡ true → IsClear after.now before.now r }
{
    r < before.len() && numbers::load(after, r) == 0 && numbers::load(before, r + 1) == 0
}

// How many marks are looked at together.
const STRIDE: usize = 8;

// Whether eight representatives in a row have no mark behind them, and the eight behind these none before. A no is never wrong, and only
// slower.
fn eight_clear(after: &[u16], before: &[u16], r: usize) -> bool
    ensures { result ≡ true → AllClear after.now before.now r 8 }
{
    if after.len().saturating_sub(r) < STRIDE || before.len().saturating_sub(r) <= STRIDE {
        return false;
    }
    let mut bits: u16 = 0;
    for i in 0..STRIDE {
        bits |= after[r + i] | before[r + 1 + i];
    }
    bits == 0
}

// How many of len representatives from r on are passed in one look: eight, one or none. Fewer are never wrong, and only slower.
fn clear_step(after: &[u16], before: &[u16], r: usize, len: usize) -> usize
    ensures { (result ≤ max len 1) × AllClear after.now before.now r result }
{
    if STRIDE <= len && eight_clear(after, before, r) {
        STRIDE
    } else {
        usize::from(one_clear(after, before, r))
    }
}

// How many of the next len representatives, from r on, have no mark between one and the next. Fewer are never wrong, and only slower.
fn clear_from(after: &[u16], before: &[u16], r: u16, len: u16) -> u16
    ensures { (result ≤ len) × AllClear after.now before.now r result }
{
    let from = usize::from(r);
    let count = usize::from(len);
    let mut k: usize = 0;
    // Kept: a `while`, since it goes on by a found length
    while k < count {
        let m = clear_step(after, before, from + k, count - k);
        if m == 0 {
            break;
        }
        k += m;
    }
    numbers::narrow(k)
}

// How many places from place i on surely go on with the row of the place before: those of its run, up to a mark. Fewer are never wrong, and
// only slower.
fn stretch(links: &[u16], last: &[u16], after: &[u16], before: &[u16], i: u16) -> u16
    ensures { Stretches links.now last.now after.now before.now i result }
{
    let at = usize::from(i) + 1;
    let len = numbers::load(last, at).saturating_sub(i.wrapping_add(1));
    let r = numbers::load(links, at);
    if r < 2 {
        len
    } else {
        clear_from(after, before, r, len)
    }
}

// The last row with so many places more.
fn widen(p: Progress, n: u16) -> Progress
    ensures { result ≡ wider p n }
{
    Progress {
        width: p.width.wrapping_add(n),
        ..p
    }
}

// Writes the rows of n places. After each place the stretch behind it is passed at once.
fn put_places(
    marks: &[u16],
    links: &[u16],
    last: &[u16],
    after: &[u16],
    before: &[u16],
    n: u16,
    numbers: &mut [u16],
    answer: &mut [u16],
) -> Counts
    ensures { PutsInRuns n marks.now links.now last.now after.now before.now numbers.old answer.old answer.new result.pieces result.fresh }
{
    let mut p = Progress {
        begun: 0,
        rows: 0,
        fresh: 0,
        variable: 0,
        kind: 0,
        width: 0,
        number: 0,
    };
    let mut i: u16 = 0;
    // Kept: a `while`, since it goes on by a found length
    while i < n {
        numbers::store(numbers, usize::from(i), p.fresh);
        let on = borders::goes_on(marks, links, after, before, i);
        borders::end_row(answer, on, p);
        p = borders::step(marks, links, numbers, on, p, i);
        i += 1;
        let m = stretch(links, last, after, before, i).min(n - i);
        runs::put_run(numbers, usize::from(i), usize::from(m), p.fresh, 0);
        p = widen(p, m);
        i = i.wrapping_add(m);
    }
    borders::put_row(answer, p);
    Counts {
        pieces: usize::from(p.rows),
        fresh: usize::from(p.fresh),
    }
}

// Writes the rows, with the help of lists that have a number for each source.
fn put_with(
    table: &[u16],
    links: &[u16],
    last: &[u16],
    marks: &mut [u16],
    after: &mut [u16],
    before: &mut [u16],
    numbers: &mut [u16],
    answer: &mut [u16],
) -> Counts
    ensures { PutsWithRuns table.now links.now last.now marks.old after.old before.old (length numbers.old) answer.old answer.new result.pieces result.fresh }
{
    let n = borders::mark_begins(table, marks);
    mark_runs(&marks[..], links, last, 1, n, &mut after[..]);
    mark_runs(&marks[..], links, last, 0, n, &mut before[..]);
    put_places(marks, links, last, after, before, n, numbers, answer)
}

// Writes the rows of an accepted table whose classes are given in runs: each link is a source's representative.
pub fn put_rows(table: &[u16], links: &[u16], last: &[u16], answer: &mut [u16]) -> Counts
    ensures { PutsRowsInRuns table.now links.now last.now answer.old answer.new result.pieces result.fresh }
{
    let mut marks = [0u16; 4098];
    let mut after = [0u16; 4098];
    let mut before = [0u16; 4098];
    let mut numbers = [0u16; 4098];
    put_with(
        table,
        links,
        last,
        &mut marks[..],
        &mut after[..],
        &mut before[..],
        &mut numbers[..],
        answer,
    )
}
