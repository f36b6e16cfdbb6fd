// Two recordings compared (document 02, (xi)). Counters rise, so one pass over both finds the pairs: where the counters that stand first differ
// the lower record is passed, where they are equal the two are a pair; and each counter is tested as it is passed. A pair's words are laid side
// by side and tested against a plan of the sheet, which is made once (crate words). What stands on one side only needs no pass: it is what the
// pairs leave.
#![tactic(auto)]

ghost use Rattle.std.specs.Prelude.{◌≡◌, not, ◌&&◌, cond, ◌++◌, ◌+◌, ◌≤◌, eqb, length};
ghost use Rattle.std.specs.Int.Bits.{bit_xor};
ghost use Rattle.std.specs.Int.Count.{ones};
ghost use Rattle.records.specs.Refusals.{record_of};
ghost use Rattle.terms.specs.Table.{rows_of, bits_of};
ghost use Rattle.terms.specs.inner.Placed.{Placed};
ghost use Rattle.recordings.specs.Recordings.{frames_of, matched, rising, differing_words};
ghost use Rattle.recordings.specs.Call.{wrong_recording, recordings_record};
ghost use Rattle.merger.specs.inner.Passing.{Countable, pair_taken, climbs_at, Tested, Seeks, Stepping, pair_at, Comparable, MergesAll, stops, concluded};

use records::Refusal;
use terms::Record;

// How many numbers a recording has at most.
pub const MAX_RECORDING: usize = 65535;

// The bits in which two words differ.
fn differing(a: u16, b: u16) -> u32
    ensures { result ≡ ones (bit_xor a b) }
{
    u16::count_ones(a ^ b)
}

// The bits in which words differ, word by word.
fn differing_words(sent: &[u16], received: &[u16]) -> u32
    requires sent_len_bound { length sent.now ≤ 32 }
    requires received_len { length received.now ≡ length sent.now }
    ensures { result ≡ differing_words sent.now received.now }
{
    let mut bits = 0;
    for i in 0..sent.len() {
        bits += differing(sent[i], received[i]);
    }
    bits
}

// Lays the words of a pair side by side: the sent ones, then the received ones.
fn lay(sent: &[u16], received: &[u16], window: &mut [u16])
    requires received_len { length received.now ≡ length sent.now }
    requires window_len { length window.old ≡ length sent.now + length sent.now }
    ensures { window.new ≡ sent.now ++ received.now }
{
    let k = sent.len();
    window[..k].copy_from_slice(sent);
    window[k..].copy_from_slice(received);
}

// How far a pass has come in either recording, and what it has found: pairs, those that break the sheet and the counter of the first of these,
// and the bits that differ.
#[derive(Clone, Copy)]
struct Pass {
    i: usize,
    j: usize,
    pairs: u32,
    broken: u32,
    first: u32,
    ties: u32,
}

// One more, if a pair breaks the sheet.
fn one_more(broken: u32, meets: bool) -> u32
    requires { broken ≤ 65535 }
    ensures { result ≡ broken + cond meets 0 1 }
{
    if meets { broken } else { broken + 1 }
}

// The counter of the first pair that breaks the sheet, after a pair.
fn first_of(old: u32, broken: u32, counter: u16, meets: bool) -> u32
    ensures { result ≡ cond meets old (cond (eqb broken 0) counter old) }
{
    if !meets && broken == 0 {
        u32::from(counter)
    } else {
        old
    }
}

// A pair: its words, its counter.
fn take_pair(
    plan: &[u16],
    sent: &[u16],
    received: &[u16],
    counter: u16,
    window: &mut [u16],
    s: Pass,
) -> Pass
    requires countable { Countable s }
    requires sent_len_bound { length sent.now ≤ 32 }
    requires received_len { length received.now ≡ length sent.now }
    requires window_len { length window.old ≡ length sent.now + length sent.now }
    ensures { result ≡ pair_taken plan.now sent.now received.now counter s }
{
    lay(sent, received, window);
    let meets = words::meets(plan, window);
    let ties = s.ties + differing_words(sent, received);
    Pass {
        i: s.i + (sent.len() + 1),
        j: s.j + (received.len() + 1),
        pairs: s.pairs + 1,
        broken: one_more(s.broken, meets),
        first: first_of(s.first, s.broken, counter, meets),
        ties,
    }
}

// Goes on to the next pair, past records that are in none; or to the end of one recording. None: a counter is not above the one before it.
fn seek(sent: &[u16], received: &[u16], k: usize, s: Pass) -> Option<Pass>
    requires k_bound { k ≤ 32 }
    requires sent_len_bound { length sent.now ≤ 65535 }
    requires received_len_bound { length received.now ≤ 65535 }
    requires tested { Tested k sent.now s.i }
    requires tested_2 { Tested k received.now s.j }
    ensures { Seeks k sent.now received.now s result }
{
    if sent.len() <= s.i || received.len() <= s.j {
        return Some(s);
    }
    let mut i = s.i;
    let mut j = s.j;
    let mut a = sent[i];
    let mut b = received[j];
    // Kept: goes by two cursors, and which one moves is found on the way.
    while a != b {
        if a < b {
            i += k + 1;
            if sent.len() <= i {
                return Some(Pass { i, j, ..s });
            }
            let next = sent[i];
            if next <= a {
                return None;
            }
            a = next;
            continue;
        }
        j += k + 1;
        if received.len() <= j {
            return Some(Pass { i, j, ..s });
        }
        let next = received[j];
        if next <= b {
            return None;
        }
        b = next;
    }
    Some(Pass { i, j, ..s })
}

// Whether the counter at an offset is above c, where there is one.
fn climbs(numbers: &[u16], i: usize, c: u16) -> bool
    requires { i ≤ 65535 }
    ensures { result ≡ climbs_at numbers.now i c }
{
    numbers.len() <= i || c < numbers[i]
}

// Takes the pair at the offsets and goes on to the next.
fn step(
    plan: &[u16],
    sent: &[u16],
    received: &[u16],
    k: usize,
    window: &mut [u16],
    s: Pass,
) -> Option<Pass>
    requires stepping { Stepping k sent.now received.now s }
    requires window_len { length window.old ≡ k + k }
    ensures { Seeks k sent.now received.now (pair_at plan.now k sent.now received.now s) result }
{
    let i = s.i;
    let j = s.j;
    let counter = sent[i];
    let taken = take_pair(
        plan,
        &sent[i + 1..i + 1 + k],
        &received[j + 1..j + 1 + k],
        counter,
        window,
        s,
    );
    if !climbs(sent, taken.i, counter) || !climbs(received, taken.j, counter) {
        return None;
    }
    seek(sent, received, k, taken)
}

// The pass, to the end of one recording: what stands behind it in the other is in no pair. None: a counter is not above the one before it.
fn merge(plan: &[u16], sent: &[u16], received: &[u16], k: usize, window: &mut [u16]) -> Option<Pass>
    requires le_k { 1 ≤ k }
    requires k_bound { k ≤ 32 }
    requires window_len { length window.old ≡ k + k }
    requires comparable { Comparable k sent.now }
    requires comparable_2 { Comparable k received.now }
    ensures { MergesAll plan.now k sent.now received.now result }
{
    let start = Pass {
        i: 0,
        j: 0,
        pairs: 0,
        broken: 0,
        first: 0,
        ties: 0,
    };
    let mut s = seek(sent, received, k, start)?;
    // Kept: the new form is no plainer: each step says where the next one begins, in both recordings.
    while s.i < sent.len() && s.j < received.len() {
        s = step(plan, sent, received, k, window, s)?;
    }
    Some(s)
}

// Whether the counters of a recording strictly rise, each above the one before it, where they do so up to an offset.
fn rises(numbers: &[u16], k: usize, from: usize) -> bool
    requires k_bound { k ≤ 32 }
    requires numbers_len_bound { length numbers.now ≤ 65535 }
    requires tested { Tested k numbers.now from }
    ensures { result ≡ rising (frames_of k numbers.now) }
{
    let mut i = from;
    // Kept: goes by records, of each of which it reads the counter and that of the next: no plainer by step_by or chunks.
    while i + (k + 1) < numbers.len() {
        if numbers[i + (k + 1)] <= numbers[i] {
            return false;
        }
        i += k + 1;
    }
    true
}

// Whether both recordings rise, where a pass over both has ended.
fn both_rise(s: Pass, sent: &[u16], received: &[u16], k: usize) -> bool
    requires k_bound { k ≤ 32 }
    requires sent_len_bound { length sent.now ≤ 65535 }
    requires received_len_bound { length received.now ≤ 65535 }
    requires tested { Tested k sent.now s.i }
    requires tested_2 { Tested k received.now s.j }
    ensures { result ≡ rising (frames_of k sent.now) && rising (frames_of k received.now) }
{
    rises(sent, k, s.i) && rises(received, k, s.j)
}

// Whether a recording is not too long, and whole records of a counter and k words.
fn whole(numbers: &[u16], k: usize) -> bool
    requires le_k { 1 ≤ k }
    requires k_bound { k ≤ 32 }
    ensures { result ≡ not (wrong_recording k numbers.now) }
{
    numbers.len() <= MAX_RECORDING && numbers.len() % (k + 1) == 0
}

// Whether n variables of 16 bits are those of a pair, half of them for either side, and both recordings are whole records of so many words.
fn fit(n: usize, sent: &[u16], received: &[u16]) -> bool
    requires some { 1 ≤ n }
    requires n_bound { n ≤ 64 }
    ensures { result ≡ not (stops n sent.now received.now) }
{
    n % 2 == 0 && whole(sent, n / 2) && whole(received, n / 2)
}

// The record of a pass over two recordings of so many records: those in no pair are what the pairs leave.
fn conclude(sent: usize, received: usize, s: Pass) -> Record
    requires sent_bound { sent ≤ 65535 }
    requires received_bound { received ≤ 65535 }
    requires pairs_bound { s.pairs + s.pairs ≤ sent + received }
    ensures { result ≡ concluded sent received s }
{
    let pairs = s.pairs;
    let records = sent + received;
    let fresh = records as u32 - 2 * pairs;
    Record {
        outcome: 0,
        pieces: pairs,
        fresh,
        free: s.broken,
        ties: s.ties,
        row: s.first,
    }
}

// The record of two recordings and a table that was checked and placed, or why the call stops.
fn compare_in(
    table: &[u16],
    widths: &[u16],
    places: &[u16],
    bits: usize,
    sent: &[u16],
    received: &[u16],
) -> Result<Record, Refusal>
    requires placed { Placed table.now widths.now places.now }
    requires bits_value { bits ≡ bits_of (rows_of table.now) }
    ensures record { record_of result ≡ recordings_record table.now sent.now received.now }
{
    let Some(n) = words::window_of(table) else {
        return Err(Refusal::Recordings);
    };
    if !fit(n, sent, received) {
        return Err(Refusal::Recordings);
    }
    let k = n / 2;
    let mut plan = [0u16; words::PLAN];
    words::prepare(table, widths, places, bits, &mut plan);
    let mut window = [0u16; 64];
    let Some(found) = merge(&plan, sent, received, k, &mut window[..n]) else {
        return Err(Refusal::Counters);
    };
    if !both_rise(found, sent, received, k) {
        return Err(Refusal::Counters);
    }
    Ok(conclude(sent.len() / (k + 1), received.len() / (k + 1), found))
}

// The same for any table.
fn try_compare(table: &[u16], sent: &[u16], received: &[u16]) -> Result<Record, Refusal>
    ensures record { record_of result ≡ recordings_record table.now sent.now received.now }
{
    let mut widths = [0u16; 512];
    let mut places = [0u16; 578];
    checker::check_and_place(table, &mut widths, &mut places)?;
    let bits = usize::from(places[checker::BITS]);
    compare_in(table, &widths, &places, bits, sent, received)
}

// The record of two recordings, compared under a table.
pub fn compare_recordings(table: &[u16], sent: &[u16], received: &[u16]) -> Record
    ensures record { result ≡ recordings_record table.now sent.now received.now }
{
    try_compare(table, sent, received).unwrap_or_else(Refusal::record)
}
