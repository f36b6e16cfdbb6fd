// Classes of equal bits (document 01, "tied bits") over a lent run of numbers: each source links to a lower one of its class, or to
// itself. Sources 0 and 1 are the fixed bits, place i is i + 2. Each function takes every input; what it promises of the classes is for
// links that point down.
#![tactic(auto)]

ghost use Rattle.classes.specs.inner.Links.{number_of, Finds, Takes, Settles};

// The root of a source; each second link on the way is halved. A link to a root stays.
pub fn find(links: &mut [u16], s: u16) -> u16
    ensures { Finds links.old links.new s result }
{
    if links.len() <= usize::from(s) {
        return s;
    }
    let mut x = s;
    let mut p = links[usize::from(x)];
    // Kept: a for is no plainer, since the loop steps by links that it reads on its way.
    while p < x {
        let g = links[usize::from(p)];
        if p <= g {
            return p;
        }
        links[usize::from(x)] = g;
        x = g;
        p = links[usize::from(x)];
    }
    x
}

// What a pair says: nothing new, a tie, or that two different fixed bits meet.
#[derive(Clone, Copy, PartialEq, Eq)]
pub enum Pairing {
    Nothing,
    Tie,
    Conflict,
}

// Takes the pair of two sources by their roots.
fn join(links: &mut [u16], s: u16, t: u16) -> Pairing
    ensures { Takes links.old links.new s t (number_of result) }
{
    let a = find(links, s);
    let b = find(links, t);
    if a == b {
        return Pairing::Nothing;
    }
    let top = a.max(b);
    if top == 1 {
        return Pairing::Conflict;
    }
    numbers::store(links, usize::from(top), a.min(b));
    Pairing::Tie
}

// Takes the pair of two sources. Two that link to the same source are of one class already, as most are once there are many ties.
pub fn take_pair(links: &mut [u16], s: u16, t: u16) -> Pairing
    ensures { Takes links.old links.new s t (number_of result) }
{
    let p = numbers::load(links, usize::from(s));
    let q = numbers::load(links, usize::from(t));
    if p == q {
        Pairing::Nothing
    } else {
        join(links, s, t)
    }
}

// The closing sweep: each link its root.
pub fn settle(links: &mut [u16])
    ensures { Settles links.old links.new }
{
    for i in 0..links.len() {
        let v = usize::from(links[i]);
        if links.len() <= v {
            return;
        }
        links[i] = links[v];
    }
}
