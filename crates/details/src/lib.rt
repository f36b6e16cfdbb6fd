// What the program cases prints of a table behind its answer: the record and the normal form of each row, the record and the value of each row
// under a pattern, and the patterns of fresh bits.
#![tactic(auto)]

ghost use Rattle.std.specs.Prelude.{◌≡◌, cond, eqb, length};
ghost use Rattle.details.specs.inner.Printing.{mark_at, marks, four_line, pieces_behind, pieces_put};

use sheets::Text;
use std::io::{Print, Stdout};
use terms::Record;

// The numbers of a normal form.
const FORM: usize = 4096;

// Writes the first n bytes of a buffer, or all of it, to standard output.
pub fn write_first(stdout: Stdout, out: &[u8], n: usize) {
    let len = n.min(out.len());
    let _ = stdout.write_all(&out[..len]);
}

// 1 for each step-th number from the first on, 0 for the others.
fn mark(i: usize, first: usize, step: usize) -> u8
    ensures { result ≡ mark_at first step i }
{
    if step != 0 && i % step == first { 1 } else { 0 }
}

// Sets each byte to its mark.
fn mark_every(bits: &mut [u8], first: usize, step: usize)
    ensures { bits.new ≡ marks first step (length bits.old) }
{
    for (i, bit) in bits.iter_mut().enumerate() {
        *bit = mark(i, first, step);
    }
}

// A bit as a byte of text.
fn digit(bit: u8) -> u8
    ensures { result ≡ cond (eqb bit 1) 49 48 }
{
    if bit == 1 { b'1' } else { b'0' }
}

// Writes a record's values as a line, and behind them up to 4,096 bits as a line of digits.
fn print_bits(stdout: Stdout, found: Record, bits: &[u8], out: &mut [u8]) {
    let mut line = [10u8; 4097];
    let len = bits.len().min(4096);
    for (place, bit) in line.iter_mut().zip(&bits[..len]) {
        *place = digit(*bit);
    }
    let at = writer::put_line(lines::record_values(found), out, 0);
    let end = writer::put_bytes(&line[..len + 1], out, at);
    write_first(stdout, out, end);
}

fn print_record(stdout: Stdout, found: Record, out: &mut [u8]) {
    let end = writer::put_line(lines::record_values(found), out, 0);
    write_first(stdout, out, end);
}

// A line of four values.
fn four_values(a: u16, b: u16, c: u16, d: u16) -> Text
    ensures { result ≡ four_line a b c d }
{
    lines::values(&[u32::from(a), u32::from(b), u32::from(c), u32::from(d)])
}

// Writes a line for each of the first n pieces of a form, from a place on where they fit, and gives the place behind them.
fn put_pieces(form: &[u16], n: usize, out: &mut [u8], at: usize) -> usize
    ensures place { result ≡ pieces_behind (length out.old) at form.now n }
    ensures bytes { out.new ≡ pieces_put out.old at form.now n }
{
    let mut behind = at;
    for i in 0..n {
        let p = pieces::piece_at(form, i);
        let line = four_values(p.kind, p.variable, p.high, p.low);
        behind = writer::put_line(line, out, behind);
    }
    behind
}

// The record and the normal form of a row.
fn print_form(stdout: Stdout, table: &[u16], row: usize, out: &mut [u8]) {
    let mut form = [0u16; FORM];
    let found = normalizer::normal_form(table, row, &mut form[..]);
    let at = writer::put_line(lines::record_values(found), out, 0);
    let end = put_pieces(&form[..], found.pieces as usize, out, at);
    write_first(stdout, out, end);
}

pub fn print_forms(stdout: Stdout, table: &[u16], out: &mut [u8]) {
    let _ = stdout.write_all(b"forms\n");
    for row in 0..table.len() / 4 {
        print_form(stdout, table, row, out);
    }
}

// The record and the value of a row under a pattern.
fn print_value(stdout: Stdout, table: &[u16], row: usize, pattern: &[u8], out: &mut [u8]) {
    let mut value = [0u8; terms::MAX_WIDTH];
    let found = evaluator::value(table, row, pattern, &mut value[..]);
    // Kept: the C interface: a record's outcome is a number, which is printed.
    if found.outcome != 0 {
        print_record(stdout, found, out);
        return;
    }
    let len = (found.free as usize).min(terms::MAX_WIDTH);
    print_bits(stdout, found, &value[..len], out);
}

pub fn print_values(stdout: Stdout, table: &[u16], bits: usize, out: &mut [u8]) {
    let _ = stdout.write_all(b"values\n");
    let mut pattern = [0u8; terms::MAX_BITS];
    mark_every(&mut pattern[..], 0, 3);
    let len = bits.min(terms::MAX_BITS);
    for row in 0..table.len() / 4 {
        print_value(stdout, table, row, &pattern[..len], out);
    }
}

// The record and the pattern that a table's answer gives at fresh bits, every second of which is 1, the first of these given.
pub fn print_pattern(
    stdout: Stdout,
    table: &[u16],
    answer: &[u16],
    first: usize,
    free: usize,
    out: &mut [u8],
) {
    let mut fresh = [0u8; terms::MAX_BITS];
    mark_every(&mut fresh[..], first, 2);
    let len = free.min(terms::MAX_BITS);
    let mut pattern = [0u8; terms::MAX_BITS];
    let mut work = [0u16; solver::MEMORY];
    let found = matcher::make_pattern(
        table,
        answer,
        &fresh[..len],
        &mut pattern[..],
        &mut work[..],
    );
    let bits = (found.free as usize).min(terms::MAX_BITS);
    print_bits(stdout, found, &pattern[..bits], out);
}
