// The pattern call (document 02, (x)): patterns are made of the answer solved from the term table lent, and of no other. The table is solved again,
// its answer is compared with the one lent, number by number, and that one is filled (crate maker).
#![tactic(auto)]

ghost use Rattle.std.specs.Prelude.{◌≡◌, ◌*◌, ◌≤◌, eqb, length};
ghost use Rattle.areas.specs.inner.Areas.{agree};
ghost use Rattle.records.specs.Refusals.{record_of};
ghost use Rattle.assignments.specs.Matching.{make_record, make_after, make_work};
ghost use Rattle.matcher.specs.inner.Matching.{ComparesPlaced};

use records::Refusal;
use terms::Record;

// The bits in which two runs of numbers differ as far as both go, taken together: 0 if they agree. There is no way out of the loop: it is faster so.
// Kept: beside crate areas, which compares with the holders of places and not with a second list: one function for both is no plainer.
fn differ(a: &[u16], b: &[u16]) -> u16
    ensures { eqb result 0 ≡ agree a.now b.now }
{
    let mut bits: u16 = 0;
    for i in 0..a.len().min(b.len()) {
        bits |= b[i] ^ a[i];
    }
    bits
}

// Whether an answer is another than the one solved from a table that was checked and placed, which has one for outcome 2 alone. `own` is for
// that one.
fn is_not(
    table: &[u16],
    widths: &[u16],
    places: &[u16],
    bits: usize,
    answer: &[u16],
    own: &mut [u16],
    work: &mut [u16],
) -> bool
    ensures { bits * 6 ≤ length own.old → ComparesPlaced table.now widths.now places.now bits answer.now (length work.old) result }
{
    let found = solver::solve_placed(table, widths, places, bits, work, own);
    found.outcome != 2
        || answer.len() != (found.pieces as usize) * answers::ROW
        || differ(answer, own) != 0
}

// The same with room for so many numbers of the answer: each of them is set to 0 first, so a small table has a short one.
fn is_not_in<const OWN: usize>(
    table: &[u16],
    widths: &[u16],
    places: &[u16],
    bits: usize,
    answer: &[u16],
    work: &mut [u16],
) -> bool
    requires in_bounds { OWN ≤ 24576 }
    ensures { bits * 6 ≤ OWN → ComparesPlaced table.now widths.now places.now bits answer.now (length work.old) result }
{
    let mut own = [0u16; OWN];
    is_not(table, widths, places, bits, answer, &mut own[..], work)
}

// Whether an answer is another than the one solved from a table that was checked and placed: one of at most 128 variable bits is small.
fn is_other(
    table: &[u16],
    widths: &[u16],
    places: &[u16],
    bits: usize,
    answer: &[u16],
    work: &mut [u16],
) -> bool
    ensures { ComparesPlaced table.now widths.now places.now bits answer.now (length work.old) result }
{
    if bits <= 128 {
        is_not_in::<768>(table, widths, places, bits, answer, work)
    } else {
        is_not_in::<{ solver::ANSWER }>(table, widths, places, bits, answer, work)
    }
}

// The pattern that the answer solved from a table gives at fresh bits, as bytes 0 and 1, high bit first: its record, or why the call stops.
fn try_pattern(
    table: &[u16],
    answer: &[u16],
    fresh: &[u8],
    pattern: &mut [u8],
    work: &mut [u16],
) -> Result<Record, Refusal>
    ensures record { record_of result ≡ make_record table.now answer.now fresh.now (length pattern.old) (length work.old) }
    ensures pattern { pattern.new ≡ make_after table.now answer.now fresh.now pattern.old (length work.old) }
    ensures work { work.new ≡ make_work table.now answer.now fresh.now (length pattern.old) work.old }
{
    if work.len() < solver::MEMORY {
        return Err(Refusal::Room);
    }
    let mut widths = [0u16; 512];
    let mut places = [0u16; 578];
    checker::check_and_place(table, &mut widths, &mut places)?;
    let mut starts = [0u16; 4096];
    let Some(found) = shapes::form_of(answer, &mut starts) else {
        return Err(Refusal::Form);
    };
    let bits = usize::from(places[checker::BITS]);
    let other = is_other(table, &widths, &places, bits, answer, work);
    work.fill(0);
    if other {
        return Err(Refusal::OtherAnswer);
    }
    Ok(maker::fill(answer, found, fresh, &starts, pattern))
}

// The same, with the record of where it stops.
pub fn make_pattern(
    table: &[u16],
    answer: &[u16],
    fresh: &[u8],
    pattern: &mut [u8],
    work: &mut [u16],
) -> Record
    ensures record { result ≡ make_record table.now answer.now fresh.now (length pattern.old) (length work.old) }
    ensures pattern { pattern.new ≡ make_after table.now answer.now fresh.now pattern.old (length work.old) }
    ensures work { work.new ≡ make_work table.now answer.now fresh.now (length pattern.old) work.old }
{
    try_pattern(table, answer, fresh, pattern, work).unwrap_or_else(Refusal::record)
}
