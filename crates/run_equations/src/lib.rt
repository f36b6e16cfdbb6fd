// The equations of a table taken one after the other in whole pieces (document 001, section 6): each is cut once (crate slicer), and the
// pairs of each slice are taken run by run (run_slices), until two different fixed bits meet. Where runs are short, so that steps cost more
// than bits, it gives up: that decides the time and nothing else.
#![tactic(auto)]

ghost use Rattle.std.specs.Prelude.{◌≡◌, true, false, ◌≤◌, length, IfOk, OnErr, IfSome};
ghost use Rattle.run_equations.specs.inner.Equations.{TakesSlices, TakesEquation, TakesInRuns, KeepsRuns};

use run_slices::{Conflict, Tally};

// Takes the first n slices of a cut, one after the other.
fn take_slices(
    cuts: &[u16],
    n: usize,
    links: &mut [u16],
    last: &mut [u16],
    first: &mut [u16],
) -> Result<Tally, Conflict>
    ensures taken { IfOk result (λ t. TakesSlices cuts.now n links.old last.old first.old links.new last.new first.new false t.ties) }
    ensures conflict { OnErr result (TakesSlices cuts.now n links.old last.old first.old links.new last.new first.new true 0) }
{
    let mut ties: usize = 0;
    let mut cost: usize = 0;
    for i in 0..n.min(terms::MAX_WIDTH) {
        let at = i * slicer::LENGTH;
        let left = numbers::load(cuts, at);
        let right = numbers::load(cuts, at + 1);
        let width = numbers::load(cuts, at + 2);
        let t = run_slices::take_slice(links, last, first, left, right, width)?;
        ties += t.ties;
        cost += t.cost;
    }
    Ok(Tally { ties, cost })
}

// The same of an equation, and how many pairs it has.
#[derive(Clone, Copy)]
struct Equation {
    ties: usize,
    cost: usize,
    pairs: usize,
}

// What one equation is said to cost at the most: enough to give up.
const MOST: usize = 65536;

// Takes equation r: its sides are written, cut, and the slices taken.
fn take_equation(
    table: &[u16],
    widths: &[u16],
    variables: &[u16],
    lows: &[u16],
    r: usize,
    left: &mut [u16],
    right: &mut [u16],
    cuts: &mut [u16],
    links: &mut [u16],
    last: &mut [u16],
    first: &mut [u16],
) -> Result<Equation, Conflict>
    ensures taken { IfOk result (λ e. TakesEquation table.now widths.now variables.now lows.now r (length left.old) (length right.old) (length cuts.old)
        links.old last.old first.old links.new last.new first.new false e.ties) }
    ensures conflict { OnErr result (TakesEquation table.now widths.now variables.now lows.now r (length left.old) (length right.old) (length cuts.old)
        links.old last.old first.old links.new last.new first.new true 0) }
    ensures few { IfOk result (λ e. (e.ties ≤ 1024) × (e.cost ≤ 65536) × (e.pairs ≤ 1024)) }
{
    let width = sides::put_sides(table, widths, variables, r, left, right);
    let n = slicer::cut_sides(lows, left, right, width, cuts);
    let s = take_slices(cuts, n, links, last, first)?;
    Ok(Equation {
        ties: s.ties.min(terms::MAX_WIDTH),
        cost: s.cost.min(MOST),
        pairs: width.min(terms::MAX_WIDTH),
    })
}

// How far the equations were taken, as in crate taking.
#[derive(Clone, Copy)]
pub struct Taken {
    pub row: usize,
    pub ties: usize,
}

// A step or a link followed is worth so many pairs, and so many pairs are taken as a head start.
const WORTH: usize = 8;

const GRACE: usize = 4096;

// Takes the equations of a table below row `to`, in row order. It may give up after each of them (None): that is never wrong, and only slower.
pub fn take_equations(
    table: &[u16],
    widths: &[u16],
    variables: &[u16],
    lows: &[u16],
    to: usize,
    left: &mut [u16],
    right: &mut [u16],
    cuts: &mut [u16],
    links: &mut [u16],
    last: &mut [u16],
    first: &mut [u16],
) -> Option<Taken>
    ensures equations { IfSome result (λ t. TakesInRuns table.now widths.now variables.now lows.now to (length left.old) (length right.old) (length cuts.old)
        links.old last.old first.old links.new t.row t.ties) }
    ensures runs { IfSome result (λ t. KeepsRuns table.now widths.now variables.now lows.now to (length left.old) (length right.old) (length cuts.old)
        links.old last.old first.old links.new last.new first.new t.row) }
{
    let rows = to.min(terms::MAX_ROWS);
    let mut ties: usize = 0;
    let mut cost: usize = 0;
    let mut pairs: usize = GRACE;
    let mut r = sides::next_equation(table, 0, rows);
    // Kept: a `while`, since it goes from equation to equation by the row that was found
    while r < rows {
        let Ok(e) = take_equation(
            table, widths, variables, lows, r, left, right, cuts, links, last, first,
        ) else {
            return Some(Taken { row: r, ties });
        };
        ties += e.ties;
        cost += e.cost;
        pairs += e.pairs;
        if pairs < WORTH * cost {
            return None;
        }
        r = sides::next_equation(table, r + 1, rows);
    }
    Some(Taken { row: r, ties })
}
