// The closing sweep in whole runs (document 001, section 6, "lazy constant propagation"): one rising pass over the runs, behind which each
// source links to its root. Fixed bits and roots are passed on through any chain of words, and a second pass would change nothing.
#![tactic(auto)]

ghost use Rattle.run_sweep.specs.inner.Settled.{SettlesRun, SettlesRuns};

// The run of x goes straight to its roots, as far as the run goes that it links to. How many sources that are.
fn settle_run(links: &mut [u16], last: &mut [u16], first: &mut [u16], x: u16) -> u16
    ensures { SettlesRun x links.old last.old first.old links.new last.new first.new result }
{
    let g = numbers::load(links, usize::from(x));
    let len = runs::rest(last, x);
    if g < 2 || x <= g {
        return len;
    }
    let m = len.min(runs::rest(last, g).min(x - g));
    let to = numbers::load(links, usize::from(g));
    runs::carve(links, last, first, x, m, to);
    m
}

// The closing sweep, run by run, from the first on: each link its root. Fixed bits and roots are passed on until nothing changes.
pub fn settle(links: &mut [u16], last: &mut [u16], first: &mut [u16])
    ensures { SettlesRuns links.old last.old first.old links.new last.new first.new }
{
    let mut i: usize = 2;
    // Kept: a `while`, since it goes on by a found length
    while i < links.len() {
        let m = settle_run(links, last, first, numbers::narrow(i));
        i += usize::from(m.max(1));
    }
}
