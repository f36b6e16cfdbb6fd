// The pairs of a slice taken in whole runs (document 001, section 6): one step of crate run_pairs after the other, until the slice is used
// up or two different fixed bits meet.
#![tactic(auto)]

ghost use Rattle.std.specs.Prelude.{◌≡◌, ◌≢◌, cond, true, false, ◌≤◌, eqb, IfOk, OnErr};
ghost use Rattle.classes.specs.inner.Links.{number_of};
ghost use Rattle.run_slices.specs.inner.Slices.{TakesSlice};

use classes::Pairing;

// How many ties pairs are, and how many steps and links that took.
#[derive(Clone, Copy)]
pub struct Tally {
    pub ties: usize,
    pub cost: usize,
}

// Two different fixed bits met.
#[derive(Clone, Copy)]
pub struct Conflict;

// How many ties n pairs are.
fn gained(what: Pairing, n: u16) -> Result<u16, Conflict>
    ensures ties { IfOk result (λ m. (number_of what ≢ 2) × (m ≡ cond (eqb (number_of what) 1) n 0)) }
    ensures conflict { OnErr result (number_of what ≡ 2) }
{
    match what {
        Pairing::Nothing => Ok(0),
        Pairing::Tie => Ok(n),
        Pairing::Conflict => Err(Conflict),
    }
}

// Takes the pairs of a slice, run by run. Where two different fixed bits meet, the rest is left.
pub fn take_slice(
    links: &mut [u16],
    last: &mut [u16],
    first: &mut [u16],
    left: u16,
    right: u16,
    width: u16,
) -> Result<Tally, Conflict>
    ensures taken { IfOk result (λ t. TakesSlice left right width links.old last.old first.old links.new last.new first.new false t.ties) }
    ensures conflict { OnErr result (TakesSlice left right width links.old last.old first.old links.new last.new first.new true 0) }
    ensures few { IfOk result (λ t. (t.ties ≤ 65535) × (t.cost ≤ 4294967296)) }
{
    let mut a = left;
    let mut b = right;
    let mut len = width;
    let mut ties: usize = 0;
    let mut cost: usize = 0;
    // Kept: a `while`, since it goes on by a found length
    while 0 < len {
        let s = run_pairs::take_run(links, last, first, a, b, len);
        let n = s.len.max(1);
        ties += usize::from(gained(s.what, n.min(len))?);
        cost += usize::from(s.hops) + 1;
        a = runs::along(a, n);
        b = runs::along(b, n);
        len = len.saturating_sub(n);
    }
    Ok(Tally { ties, cost })
}
