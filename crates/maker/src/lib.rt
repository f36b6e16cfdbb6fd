// An answer table filled with fresh bits (document 01, "The solver's answer"): its form was read (crate shapes), and each row's bits are written to
// the pattern. The call, which asks for the table that the answer was solved from, is in the crate matcher.
#![tactic(auto)]

ghost use Rattle.std.specs.Prelude.{◌≡◌};
ghost use Rattle.laws.specs.Buffers.{Behind};
ghost use Rattle.maker.specs.inner.Filling.{byte_in, bytes_in, WritesRows, Fills};

use records::Refusal;
use shapes::Found;
use terms::Record;

// A byte of a row: a fill's bit, or byte i of the fresh bits.
fn byte_of(fresh: &[u8], kind: u16, i: usize) -> u8
    ensures { result ≡ byte_in fresh.now kind i }
{
    match kind {
        0 => 0,
        1 => 1,
        _ => fresh.get(i).copied().unwrap_or(0),
    }
}

// Writes the bits of a row behind the bytes that are there, the fresh bits from a start on. How many bytes there are then.
fn put_bits(fresh: &[u8], start: u16, kind: u16, width: u16, out: &mut [u8], from: usize) -> usize
    ensures { Behind (bytes_in fresh.now kind start width) from out.old result out.new }
{
    let mut at = from;
    for j in 0..width {
        if out.len() <= at {
            return at;
        }
        out[at] = byte_of(fresh, kind, usize::from(start) + usize::from(j));
        at += 1;
    }
    at
}

// Writes the bits of every row: a fill's copies, or those of its fresh piece.
fn put_rows(answer: &[u16], fresh: &[u8], starts: &[u16], out: &mut [u8])
    ensures { WritesRows answer.now fresh.now starts.now out.old out.new }
{
    let mut at = 0;
    for i in 0..answer.len() / answers::ROW {
        let r = answer_table::row_at(answer, i);
        let start = numbers::load(starts, usize::from(r.fresh));
        at = put_bits(fresh, start, r.kind, r.width, out, at);
    }
}

// Fills an answer table that has the form with fresh bits: the record, and the pattern. `found` and `starts` are what was read of the form.
pub fn fill(
    answer: &[u16],
    found: Found,
    fresh: &[u8],
    starts: &[u16],
    pattern: &mut [u8],
) -> Record
    ensures { Fills answer.now found fresh.now starts.now pattern.old pattern.new result }
{
    if fresh.len() != usize::from(found.free) || !numbers::all_bits(fresh) {
        return Refusal::FreshBits.record();
    }
    if pattern.len() < usize::from(found.bits) {
        return Refusal::Output.record();
    }
    put_rows(answer, fresh, starts, pattern);
    records::complete(0, u32::from(found.bits))
}
