// The work area of an open job (document 02, (viii)): for each variable bit what holds it, and 0 after the last. It is compared with the
// links of a table's sources, and written from them. Links have for each source its representative.
#![tactic(auto)]

ghost use Rattle.std.specs.Prelude.{◌≡◌, eqb, length, drop};
ghost use Rattle.terms.specs.Table.{same_word};
ghost use Rattle.laws.specs.Buffers.{overwrite};
ghost use Rattle.jobs.specs.Prefix.{host_number};
ghost use Rattle.jobs.specs.State.{area_of};
ghost use Rattle.areas.specs.inner.Areas.{held_by, agree, all_zero};

// A representative as a host reads it: a fixed bit is 4,096 or 4,097, a place its own number.
fn host_number(s: u16) -> u16
    ensures { result ≡ host_number s }
{
    if s < 2 { 4096 + s } else { s - 2 }
}

// The links of the places: those behind the two fixed bits.
fn of_places(links: &[u16]) -> &[u16]
    ensures { result.now ≡ drop 2 links.now }
{
    &links[links.len().min(2)..]
}

// The bits in which numbers differ from the holders that the links give, taken together: 0 if they agree.
fn holders_differ(links: &[u16], work: &[u16]) -> u16
    ensures { eqb result 0 ≡ agree (held_by links.now) work.now }
{
    let mut bits = 0;
    for (x, s) in work.iter().zip(of_places(links)) {
        bits |= *x ^ host_number(*s);
    }
    bits
}

// The bits of numbers, taken together: 0 if each is 0.
fn bits_together(numbers: &[u16]) -> u16
    ensures { eqb result 0 ≡ all_zero numbers.now }
{
    let mut bits = 0;
    for x in numbers {
        bits |= *x;
    }
    bits
}

// Whether a work area is that of the links: each place's holder, and 0 after the last.
pub fn is_area(links: &[u16], work: &[u16]) -> bool
    ensures { result ≡ same_word (area_of (length work.now) (held_by links.now)) work.now }
{
    let n = of_places(links).len();
    n <= work.len() && holders_differ(links, work) == 0 && bits_together(&work[n..]) == 0
}

// Writes the holder of each place, as far as there is room; what follows stays.
pub fn put_holders(links: &[u16], work: &mut [u16])
    ensures { work.new ≡ overwrite (held_by links.now) work.old }
{
    let links = of_places(links);
    for i in 0..links.len().min(work.len()) {
        work[i] = host_number(links[i]);
    }
}
