// Marker positions in a run of words (document 02, (ii)): a table of 16-bit variables is turned into a plan once (crate words), and the
// window at each start is tested against the plan.
#![tactic(auto)]

ghost use Rattle.std.specs.Prelude.{◌≡◌, cond, ◌+◌, ◌≤◌, ◌<◌, length, set};
ghost use Rattle.records.specs.Refusals.{record_of};
ghost use Rattle.terms.specs.Table.{rows_of, bits_of};
ghost use Rattle.terms.specs.inner.Placed.{Placed};
ghost use Rattle.laws.specs.Buffers.{overwrite};
ghost use Rattle.words.specs.inner.Plan.{meets_plan};
ghost use Rattle.windows.specs.Call.{starts_from, positions_record, positions_after};
ghost use Rattle.positions.specs.inner.Starts.{meets_ahead};

use records::Refusal;
use terms::Record;

// How many words a run has at most.
pub const MAX_WORDS: usize = 1048576;

// Takes one start: if its window meets the plan it is counted, and written where the list has room.
fn take_start(plan: &[u16], window: &[u16], i: usize, found: usize, list: &mut [u32]) -> usize
    requires found_le_i { found ≤ i }
    requires i_bound { i < 1048576 }
    ensures count { result ≡ cond (meets_plan plan.now window.now) (found + 1) found }
    ensures list { list.new ≡ cond (meets_plan plan.now window.now) (set list.old found i) list.old }
{
    if !words::meets(plan, window) {
        return found;
    }
    if found < list.len() {
        list[found] = i as u32;
    }
    found + 1
}

// Takes every start of a run at which a window of k words has room: how many meet the plan. The list has the first of them.
fn find_starts(plan: &[u16], words: &[u16], k: usize, list: &mut [u32]) -> usize
    requires le_k { 1 ≤ k }
    requires words_len_bound { length words.now ≤ 1048576 }
    ensures count { (result ≡ length (starts_from (meets_ahead plan.now k) 0 words.now)) × (result ≤ 1048576) }
    ensures list { list.new ≡ overwrite (starts_from (meets_ahead plan.now k) 0 words.now) list.old }
{
    let mut found = 0;
    for i in 0..(words.len() + 1).saturating_sub(k) {
        found = take_start(plan, &words[i..i + k], i, found, list);
    }
    found
}

// The starts of a run at which its words meet a table that was checked and placed: how many, and in the list the first of them; or why the
// call stops.
fn positions_in(
    table: &[u16],
    widths: &[u16],
    places: &[u16],
    bits: usize,
    words: &[u16],
    list: &mut [u32],
) -> Result<Record, Refusal>
    requires placed { Placed table.now widths.now places.now }
    requires bits_value { bits ≡ bits_of (rows_of table.now) }
    ensures record { record_of result ≡ positions_record table.now words.now }
    ensures list { list.new ≡ positions_after table.now words.now list.old }
{
    let Some(k) = words::window_of(table) else {
        return Err(Refusal::NotWords);
    };
    if MAX_WORDS < words.len() {
        return Err(Refusal::LongRun);
    }
    let mut plan = [0u16; words::PLAN];
    words::prepare(table, widths, places, bits, &mut plan);
    let found = find_starts(&plan, words, k, list);
    Ok(records::complete(found as u32, 0))
}

// The same for any table.
fn try_positions(table: &[u16], words: &[u16], list: &mut [u32]) -> Result<Record, Refusal>
    ensures record { record_of result ≡ positions_record table.now words.now }
    ensures list { list.new ≡ positions_after table.now words.now list.old }
{
    let mut widths = [0u16; 512];
    let mut places = [0u16; 578];
    checker::check_and_place(table, &mut widths, &mut places)?;
    let bits = usize::from(places[checker::BITS]);
    positions_in(table, &widths, &places, bits, words, list)
}

// The starts of a run at which its words meet a table: how many, and in the list the first of them.
pub fn marker_positions(table: &[u16], words: &[u16], list: &mut [u32]) -> Record
    ensures record { result ≡ positions_record table.now words.now }
    ensures list { list.new ≡ positions_after table.now words.now list.old }
{
    try_positions(table, words, list).unwrap_or_else(Refusal::record)
}
