// Old layout against new (document 02, (xii)): two tables with the same variables are compared by the classes of their bits (crate linking).
// With h[s] for the representative of source s in the first and g[s] in the second, the first's patterns are among the second's exactly if
// h[g[s]] = h[s] for every source. A table whose equations led to a conflict has no patterns.
#![tactic(auto)]

ghost use Rattle.std.specs.Prelude.{◌≡◌, ◌+◌, ◌≤◌, length};
ghost use Rattle.terms.specs.Table.{rows_of, same_word};
ghost use Rattle.terms.specs.inner.Placed.{Placed};
ghost use Rattle.answers.specs.Answer.{variable_widths};
ghost use Rattle.records.specs.Refusals.{record_of};
ghost use Rattle.inclusion.specs.Call.{outcome_of, compare_record, compare_work};
ghost use Rattle.comparer.specs.inner.Variables.{NextVariable};
ghost use Rattle.comparer.specs.inner.Comparing.{included, among_links, links_outcome, Links, Compares, SecondStop};

use records::Refusal;
use terms::Record;

// The row of the next variable from a row on.
fn next_variable(table: &[u16], from: usize) -> Option<usize>
    ensures { NextVariable (rows_of table.now) from result }
{
    for r in from..table.len() / 4 {
        if rows::row_at(table, r).kind == terms::VARIABLE {
            return Some(r);
        }
    }
    None
}

// Whether the variables of two tables are as many and have the same widths in the same order.
fn same_variables(first: &[u16], second: &[u16]) -> bool
    ensures { result ≡ same_word (variable_widths (rows_of first.now)) (variable_widths (rows_of second.now)) }
{
    let mut q = 0;
    for r in 0..first.len() / 4 {
        let row = rows::row_at(first, r);
        if row.kind == terms::VARIABLE {
            let Some(at) = next_variable(second, q) else {
                return false;
            };
            if rows::row_at(second, at).a != row.a {
                return false;
            }
            q = at + 1;
        }
    }
    next_variable(second, q).is_none()
}

// Whether each source of so many bits and its representative in g are of one class of h.
fn included(h: &[u16], g: &[u16], bits: usize) -> bool
    requires { bits ≤ 4096 }
    ensures { result ≡ included h.now g.now bits }
{
    for s in 0..bits + 2 {
        let other = usize::from(numbers::load(g, s));
        if numbers::load(h, other) != numbers::load(h, s) {
            return false;
        }
    }
    true
}

// Whether the first's patterns are among the second's; `never` and `none` tell whether each has none.
fn among(never: bool, none: bool, h: &[u16], g: &[u16], bits: usize) -> bool
    requires { bits ≤ 4096 }
    ensures { result ≡ among_links never none h.now g.now bits }
{
    never || (!none && included(h, g, bits))
}

// The outcome, from both directions.
fn outcome(to: bool, back: bool) -> u32
    ensures { result ≡ outcome_of to back }
{
    match (to, back) {
        (true, true) => 0,
        (true, false) => 1,
        (false, true) => 2,
        (false, false) => 3,
    }
}

// Links each source of a table to its representative; whether its equations led to a conflict.
fn link(table: &[u16], widths: &[u16], places: &[u16], form: &mut [u16], links: &mut [u16]) -> bool
    ensures { Links table.now widths.now places.now (length form.old) links.old links.new result }
{
    let taken = linking::table_classes(table, widths, places, form, links);
    taken.row < table.len() / 4
}

// The outcome, from both links: h the first's, g the second's.
fn compare_links(never: bool, none: bool, h: &[u16], g: &[u16], bits: usize) -> u32
    requires { bits ≤ 4096 }
    ensures { result ≡ links_outcome never none h.now g.now bits }
{
    let to = among(never, none, h, g, bits);
    let back = among(none, never, g, h, bits);
    outcome(to, back)
}

// The outcome for two accepted tables of which the first was placed, with room for so many links: each of them is set to 0 first, so small
// tables have few. The form of a side stands in the work area, and the first's links are copied to its front, so that one list is enough, and
// the stack that is needed is that of a solve. The second is placed where the first was.
fn compare_in<const LINKS: usize>(
    first: &[u16],
    second: &[u16],
    widths: &mut [u16],
    places: &mut [u16],
    bits: usize,
    work: &mut [u16],
) -> u32
    requires few { LINKS ≤ 4098 }
    requires bits_bound { bits + 2 ≤ LINKS }
    requires in_bounds { 16384 ≤ length work.old }
    ensures { Compares first.now second.now widths.old places.old bits result }
{
    let mut list = [0u16; LINKS];
    let sources = bits + 2;
    let never = link(first, widths, places, work, &mut list[..sources]);
    numbers::copy(&list[..], sources, work);
    let _ = checker::check_and_place(second, widths, places);
    let none = link(
        second,
        widths,
        places,
        &mut work[sources..],
        &mut list[..sources],
    );
    compare_links(never, none, &work[..sources], &list[..sources], bits)
}

// The same: tables of at most 128 variable bits are small.
fn compare_placed(
    first: &[u16],
    second: &[u16],
    widths: &mut [u16],
    places: &mut [u16],
    bits: usize,
    work: &mut [u16],
) -> u32
    requires bits_bound { bits ≤ 4096 }
    requires in_bounds { 16384 ≤ length work.old }
    ensures { Compares first.now second.now widths.old places.old bits result }
{
    if bits <= 128 {
        compare_in::<130>(first, second, widths, places, bits, work)
    } else {
        compare_in::<4098>(first, second, widths, places, bits, work)
    }
}

// Whether a comparison with a first table that is accepted goes on, or stops: at the second's fault, or at 49. The second
// is checked here and placed later, so that its widths and places need no room of their own while its equations are taken.
fn stop_at(first: &[u16], second: &[u16]) -> Result<(), Refusal>
    ensures { SecondStop first.now second.now result }
{
    let mut widths = [0u16; 512];
    let mut places = [0u16; 1];
    checker::check_and_place(second, &mut widths, &mut places)?;
    if !same_variables(first, second) {
        return Err(Refusal::Variables);
    }
    Ok(())
}

// How many numbers the work area has at least.
pub const MEMORY: usize = 16384;

// Compares a table that was checked and placed with another: its record or why the call stops, and a work area of which each number is 0.
fn compare_with(
    first: &[u16],
    second: &[u16],
    widths: &mut [u16],
    places: &mut [u16],
    work: &mut [u16],
) -> Result<Record, Refusal>
    requires placed { Placed first.now widths.old places.old }
    requires in_bounds { 512 ≤ length widths.old }
    requires in_bounds_2 { 16384 ≤ length work.old }
    ensures record { record_of result ≡ compare_record first.now second.now (length work.old) }
    ensures work { work.new ≡ compare_work first.now second.now work.old }
{
    stop_at(first, second)?;
    let bits = usize::from(numbers::load(places, checker::BITS));
    let found = compare_placed(first, second, widths, places, bits, work);
    work.fill(0);
    Ok(Record {
        outcome: found,
        ..records::complete(0, 0)
    })
}

// Compares two tables: the record or why the call stops, and a work area of which each number is 0 if it does not stop.
fn try_compare(first: &[u16], second: &[u16], work: &mut [u16]) -> Result<Record, Refusal>
    ensures record { record_of result ≡ compare_record first.now second.now (length work.old) }
    ensures work { work.new ≡ compare_work first.now second.now work.old }
{
    if work.len() < MEMORY {
        return Err(Refusal::Room);
    }
    let mut widths = [0u16; 512];
    let mut places = [0u16; 578];
    checker::check_and_place(first, &mut widths, &mut places)?;
    compare_with(first, second, &mut widths, &mut places, work)
}

// The same, with the record of where it stops.
pub fn compare_tables(first: &[u16], second: &[u16], work: &mut [u16]) -> Record
    ensures record { result ≡ compare_record first.now second.now (length work.old) }
    ensures work { work.new ≡ compare_work first.now second.now work.old }
{
    try_compare(first, second, work).unwrap_or_else(Refusal::record)
}
