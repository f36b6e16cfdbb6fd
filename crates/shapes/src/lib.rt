// The form of an answer table (document 01, "The solver's answer"), as the pattern maker asks for it. One pass tests the rows one by one and
// finds where the bits of each fresh piece begin among the fresh bits; then home and high bit of every row are tested (crate homes).
#![tactic(auto)]

ghost use Rattle.std.specs.Prelude.{◌≡◌, length};
ghost use Rattle.shapes.specs.inner.Shapes.{width_before, is_new, variable_in, widths_in, fill_in, fresh_in, fine_in, advanced, ReadsForm, FindsForm};

use answers::AnswerRow;

// The kind of a row with a fresh piece; a lower kind is a fill of that bit.
// Kept: the C interface: a row of the answer table is numbers, its kind among them.
const FRESH: u16 = 2;

// What the rows passed leave for the next one: the last row's variable and the one above it, or 0 at first; the last row's kind; the
// width of its variable so far; the bits so far; how many fresh pieces were seen and how many bits they have.
#[derive(Clone, Copy, Default)]
struct Progress {
    variable: u16,
    next: u16,
    kind: u16,
    width: u16,
    bits: u16,
    pieces: u16,
    free: u16,
}

// The bits of the pattern of an answer table that has the form, and its fresh bits.
#[derive(Clone, Copy)]
pub struct Found {
    pub bits: u16,
    pub free: u16,
}

// The width of variable v in the rows passed.
#[tactic(auto, unfolding(crate::specs::inner::Shapes::width_before))]
fn width_before(p: Progress, v: u16) -> u16
    ensures { result ≡ width_before p v }
{
    if v == p.variable { p.width } else { 0 }
}

// Whether a row has the first place of a fresh piece.
#[tactic(auto, unfolding(crate::specs::inner::Shapes::is_new))]
fn is_new(p: Progress, r: AnswerRow) -> bool
    ensures { result ≡ is_new p r }
{
    FRESH <= r.kind && r.fresh == p.pieces
}

// Whether a row's variable is the last row's or the next one.
#[tactic(auto, unfolding(crate::specs::inner::Shapes::variable_in))]
fn variable_fine(p: Progress, r: AnswerRow) -> bool
    ensures { result ≡ variable_in p r }
{
    usize::from(r.variable) < terms::MAX_VARIABLES
        && (r.variable == p.variable || r.variable == p.next)
}

// Whether a row's width is at least 1 and has room in its variable and in the pattern.
#[tactic(auto, unfolding(crate::specs::inner::Shapes::widths_in))]
fn widths_fine(p: Progress, r: AnswerRow) -> bool
    ensures { result ≡ widths_in p r }
{
    let width = usize::from(r.width);
    0 < width
        && usize::from(width_before(p, r.variable)) + width <= terms::MAX_WIDTH
        && usize::from(p.bits) + width <= terms::MAX_BITS
}

// Whether a fill has fresh number 0 and does not go on with the fill before it.
#[tactic(auto, unfolding(crate::specs::inner::Shapes::fill_in))]
fn fill_fine(p: Progress, r: AnswerRow) -> bool
    ensures { result ≡ fill_in p r }
{
    r.fresh == 0 && (r.variable != p.variable || r.kind != p.kind)
}

// Whether a fresh piece was seen with the same width or has the lowest unseen number; `seen` is the width it was seen with.
#[tactic(auto, unfolding(crate::specs::inner::Shapes::fresh_in))]
fn fresh_fine(p: Progress, r: AnswerRow, seen: u16) -> bool
    ensures { result ≡ fresh_in p r seen }
{
    if FRESH < r.kind {
        return false;
    }
    if r.fresh < p.pieces {
        seen == r.width
    } else {
        r.fresh == p.pieces
    }
}

// Whether a row is fine behind those passed.
#[tactic(auto, unfolding(crate::specs::inner::Shapes::fine_in))]
fn row_fine(p: Progress, r: AnswerRow, seen: u16) -> bool
    ensures { result ≡ fine_in p r seen }
{
    if !variable_fine(p, r) || !widths_fine(p, r) {
        return false;
    }
    if r.kind < FRESH {
        fill_fine(p, r)
    } else {
        fresh_fine(p, r, seen)
    }
}

// The state with one row more: one that is new adds a fresh piece and its bits.
#[tactic(auto, unfolding(crate::specs::inner::Shapes::advanced))]
fn advance(p: Progress, r: AnswerRow) -> Progress
    ensures { result ≡ advanced p r }
{
    let new = is_new(p, r);
    let new_bits = if new { r.width } else { 0 };
    Progress {
        variable: r.variable,
        next: r.variable.wrapping_add(1),
        kind: r.kind,
        width: width_before(p, r.variable).wrapping_add(r.width),
        bits: p.bits.wrapping_add(r.width),
        pieces: p.pieces.wrapping_add(u16::from(new)),
        free: p.free.wrapping_add(new_bits),
    }
}

// Tests the form of an answer table, home and high bit aside. `widths` has afterwards the width of each fresh piece, and `starts` where its bits begin among the
// fresh bits. A row without a new fresh piece stores at the place of the next one, which stores again.
fn read_form(answer: &[u16], widths: &mut [u16], starts: &mut [u16]) -> Option<Found>
    ensures { ReadsForm answer.now widths.old starts.old starts.new result }
{
    let mut p = Progress {
        kind: FRESH,
        ..Progress::default()
    };
    for i in 0..answer.len() / answers::ROW {
        let r = answer_table::row_at(answer, i);
        if !row_fine(p, r, numbers::load(widths, usize::from(r.fresh))) {
            return None;
        }
        let place = usize::from(p.pieces);
        numbers::store(widths, place, r.width);
        numbers::store(starts, place, p.free);
        p = advance(p, r);
    }
    if answer.len() % answers::ROW != 0 {
        return None;
    }
    Some(Found {
        bits: p.bits,
        free: p.free,
    })
}

// Reads the form of an answer table. `starts` has afterwards where the bits of each fresh piece begin among the fresh bits.
pub fn form_of(answer: &[u16], starts: &mut [u16]) -> Option<Found>
    ensures { FindsForm answer.now (length starts.old) starts.new result }
{
    let mut widths = [0u16; 4096];
    let found = read_form(answer, &mut widths[..], starts)?;
    if homes::homes_fine(answer, &mut widths[..]) {
        Some(found)
    } else {
        None
    }
}
