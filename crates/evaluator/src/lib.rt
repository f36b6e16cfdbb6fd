// A row's value under a pattern (document 01, "a join sets two values side by side, a cut keeps bits").
// Each bit is found by recursion into earlier rows: a concatenation passes the bit on to one of its sides, an
// extraction to the row that it is cut from, until a variable or a fixed word is met.
#![tactic(auto)]

ghost use Rattle.std.specs.Prelude.{◌≡◌, true, ◌+◌, ◌/◌, ◌<◌, ◌≤◌, get_or, length};
ghost use Rattle.terms.specs.Table.{rows_of, row_at, bits_of, fixed_word, width_of, value_of};
ghost use Rattle.laws.specs.Buffers.{overwrite};
ghost use Rattle.terms.specs.Value.{value_record, value_after};
ghost use Rattle.terms.specs.inner.Placed.{Placed};
ghost use Rattle.records.specs.Refusals.{record_of};
ghost use Rattle.evaluator.specs.inner.Ready.{Ready, IsTerm, is_fixed};

use records::Refusal;
use terms::{Record, Row};

// The source before the variable that a row is.
fn source_before(places: &[u16], row: usize) -> usize
    requires row_bound { row < 512 }
    requires row_bound_2 { get_or places.now row 0 ≤ 64 }
    requires in_bounds { 577 ≤ length places.now }
    ensures { (result ≡ get_or places.now (512 + get_or places.now row 0) 0) × (result ≤ 65535) }
{
    let variable = usize::from(places[row]);
    places[terms::MAX_ROWS + variable].into()
}

// Whether a row of this kind is a fixed word: a constant (fill) or a value.
fn fixed(kind: u16) -> bool
    ensures { result ≡ is_fixed kind }
{
    kind == terms::CONSTANT || kind == terms::VALUE
}

// Bit i of a fixed word, counted from its high end.
fn fixed_bit(r: Row, i: usize) -> u8
    requires a_bound { r.kind ≡ 1 → r.a ≤ 1 }
    requires kind_value { is_fixed r.kind ≡ true }
    requires i_lt_b { i < r.b }
    ensures { result ≡ get_or (fixed_word r) i 0 }
{
    if r.kind == terms::CONSTANT {
        return r.a as u8;
    }
    let last = usize::from(r.b) - 1;
    numbers::bit_of(r.a, last - i) as u8
}

// Bit i of a row's value, counted from its high end.
fn bit(table: &[u16], widths: &[u16], places: &[u16], pattern: &[u8], row: usize, i: usize) -> u8
    requires ready { Ready table.now widths.now places.now pattern.now }
    requires term { IsTerm table.now row }
    requires i_bound { i < width_of (rows_of table.now) row }
    ensures { result ≡ get_or (value_of (rows_of table.now) pattern.now row) i 0 }
{
    let r = rows::row_at(table, row);
    let kind = r.kind;
    let a = usize::from(r.a);
    let b = usize::from(r.b);
    if kind == terms::VARIABLE {
        return pattern[source_before(places, row) + i - 1];
    }
    if fixed(kind) {
        return fixed_bit(r, i);
    }
    let width = usize::from(widths[a]);
    if kind == terms::CONCAT {
        if i < width {
            return bit(table, widths, places, pattern, a, i);
        }
        return bit(table, widths, places, pattern, b, i - width);
    }
    bit(table, widths, places, pattern, a, width - (b + 1) + i)
}

// Writes the row's value to the beginning of the output.
fn write_value(
    table: &[u16],
    widths: &[u16],
    places: &[u16],
    pattern: &[u8],
    row: usize,
    output: &mut [u8],
)
    requires ready { Ready table.now widths.now places.now pattern.now }
    requires term { IsTerm table.now row }
    requires row_in_bounds { width_of (rows_of table.now) row ≤ length output.old }
    ensures { output.new ≡ overwrite (value_of (rows_of table.now) pattern.now row) output.old }
{
    for i in 0..usize::from(widths[row]) {
        output[i] = bit(table, widths, places, pattern, row, i);
    }
}

// The value of a row of a table that was checked and placed, or why the call stops.
fn value_in(
    table: &[u16],
    widths: &[u16],
    places: &[u16],
    row: usize,
    pattern: &[u8],
    output: &mut [u8],
) -> Result<Record, Refusal>
    requires placed { Placed table.now widths.now places.now }
    ensures record { record_of result ≡ value_record table.now row pattern.now (length output.old) }
    ensures output { output.new ≡ value_after table.now row pattern.now output.old }
{
    if rules::not_term(table, table.len() / 4, row) {
        return Err(Refusal::NoTerm);
    }
    let bits = usize::from(places[checker::BITS]);
    if bits != pattern.len() || !numbers::all_bits(pattern) {
        return Err(Refusal::Pattern);
    }
    let width = widths[row];
    if output.len() < usize::from(width) {
        return Err(Refusal::Output);
    }
    write_value(table, widths, places, pattern, row, output);
    Ok(records::complete(0, width.into()))
}

fn try_value(
    table: &[u16],
    row: usize,
    pattern: &[u8],
    output: &mut [u8],
) -> Result<Record, Refusal>
    ensures record { record_of result ≡ value_record table.now row pattern.now (length output.old) }
    ensures output { output.new ≡ value_after table.now row pattern.now output.old }
{
    let mut widths = [0u16; 512];
    let mut places = [0u16; 578];
    checker::check_and_place(table, &mut widths, &mut places)?;
    value_in(table, &widths, &places, row, pattern, output)
}

// A row's value under a pattern, as bytes 0 and 1, high bit first.
pub fn value(table: &[u16], row: usize, pattern: &[u8], output: &mut [u8]) -> Record
    ensures record { result ≡ value_record table.now row pattern.now (length output.old) }
    ensures output { output.new ≡ value_after table.now row pattern.now output.old }
{
    try_value(table, row, pattern, output).unwrap_or_else(Refusal::record)
}
