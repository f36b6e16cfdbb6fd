// Pairs taken in whole runs (document 001, section 6, "csolve"): what crate classes does pair by pair is done here for as many pairs at
// once as their runs go side by side.
#![tactic(auto)]

ghost use Rattle.std.specs.Prelude.{◌≡◌, true, cond, ◌-◌, min, ltb};
ghost use Rattle.classes.specs.inner.Links.{number_of};
ghost use Rattle.run_pairs.specs.inner.Taken.{Shortens, Alike, TakesRun};

use classes::Pairing;

// What pairs from one on say: nothing new, that each is a tie, or that two different fixed bits meet; for how many of them, and how many links were followed.
#[derive(Clone, Copy)]
pub struct Step {
    pub what: Pairing,
    pub len: u16,
    pub hops: u16,
}

// The sources from x on, whose root was found over several links, link straight to it, as far as their run goes. To leave them as they are is
// never wrong, and only slower.
fn shorten(
    links: &mut [u16],
    last: &mut [u16],
    first: &mut [u16],
    x: u16,
    count: u16,
    root: u16,
    hops: u16,
)
    ensures { Shortens x count root links.old last.old first.old links.new last.new first.new }
{
    if hops < 2 || x <= root {
        return;
    }
    let len = count.min(runs::rest(last, x));
    runs::carve(links, last, first, x, len, root);
}

// For how many sources a run of roots can be linked to lower ones, at most count: none of it may be among those.
fn apart(hi: u16, lo: u16, count: u16) -> u16
    ensures { result ≡ cond (ltb lo 2) count (min count (hi - lo)) }
{
    if lo < 2 {
        count
    } else {
        count.min(hi.saturating_sub(lo))
    }
}

// Takes pairs from that of a and b on, by their roots.
fn take_roots(
    links: &mut [u16],
    last: &mut [u16],
    first: &mut [u16],
    a: u16,
    b: u16,
    count: u16,
) -> Step
    ensures { TakesRun a b count links.old last.old first.old links.new last.new first.new (number_of result.what) result.len }
{
    let f = runs::find(links, last, a, count);
    let g = runs::find(links, last, b, f.len);
    let hi = f.root.max(g.root);
    let lo = f.root.min(g.root);
    let hops = f.hops.wrapping_add(g.hops);
    if lo == hi {
        shorten(links, last, first, a, g.len, lo, f.hops);
        shorten(links, last, first, b, g.len, lo, g.hops);
        return Step {
            what: Pairing::Nothing,
            len: g.len,
            hops,
        };
    }
    if hi == 1 {
        return Step {
            what: Pairing::Conflict,
            len: g.len,
            hops,
        };
    }
    let tied = apart(hi, lo, g.len);
    runs::carve(links, last, first, hi, tied, lo);
    shorten(links, last, first, a, tied, lo, f.hops);
    shorten(links, last, first, b, tied, lo, g.hops);
    Step {
        what: Pairing::Tie,
        len: tied,
        hops,
    }
}

// Whether two places link to the same source: as far as both runs go, their pairs say nothing. A no is never wrong, and only slower.
fn alike(links: &[u16], a: u16, b: u16) -> bool
    ensures { result ≡ true → Alike links.now a b }
{
    2 <= a.min(b) && numbers::load(links, usize::from(a)) == numbers::load(links, usize::from(b))
}

// Takes pairs from that of a and b on, as far as their runs go.
pub fn take_run(
    links: &mut [u16],
    last: &mut [u16],
    first: &mut [u16],
    a: u16,
    b: u16,
    count: u16,
) -> Step
    ensures { TakesRun a b count links.old last.old first.old links.new last.new first.new (number_of result.what) result.len }
{
    if alike(links, a, b) {
        return Step {
            what: Pairing::Nothing,
            len: count.min(runs::rest(last, a).min(runs::rest(last, b))),
            hops: 0,
        };
    }
    take_roots(links, last, first, a, b, count)
}
