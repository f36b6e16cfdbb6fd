// The word test (document 02, (ii)): a table of 16-bit variables is turned into a plan once, and each window of words is then tested
// against the plan with a few word operations. Place i is bit 15 - i % 16 of word i / 16.
#![tactic(auto)]

ghost use Rattle.std.specs.Prelude.{◌≡◌, cond, ◌+◌, ◌≤◌, ◌<◌, min, length, get_or};
ghost use Rattle.laws.specs.Lists.{below};
ghost use Rattle.groups.specs.inner.Places.{equal_test};
ghost use Rattle.groups.specs.inner.Counts.{linked};
ghost use Rattle.terms.specs.Table.{rows_of};
ghost use Rattle.words.specs.inner.Windows.{some_window};
ghost use Rattle.words.specs.inner.Sizes.{has_fixed};
ghost use Rattle.words.specs.inner.Plan.{fixed_test, meets_plan, FixedBits, FixedRowPut, PutsFixed, PutsRows, PutsNever, Plans, Prepares};

// How many numbers a plan has: row 0, and room for 64 fixed rows and 1,023 equal rows.
// Kept: numbers of a lent buffer (no heap), of which meets_plan, Sized and Tells (specs/inner) speak by their place.
pub const PLAN: usize = 4352;

const FIXED: usize = 64;

const EQUAL: usize = 1023;

// A number of a plan.
fn number(plan: &[u16], i: usize) -> usize
    requires { i < length plan.now }
    ensures { (result ≡ get_or plan.now i 0) × (result ≤ 65535) }
{
    usize::from(plan[i])
}

// A word of a window, 0 past its end.
fn word(window: &[u16], x: usize) -> usize
    ensures { (result ≡ get_or window.now x 0) × (result ≤ 65535) }
{
    usize::from(numbers::load(window, x))
}

// Whether a window passes the tests of the fixed rows.
fn fixed_meet(plan: &[u16], window: &[u16]) -> bool
    requires { 4352 ≤ length plan.now }
    ensures { result ≡ below (min (get_or plan.now 0 0) 64) (fixed_test plan.now window.now) }
{
    let n = number(plan, 0).min(FIXED);
    for j in 0..n {
        let at = 4 * j + 4;
        let x = word(window, number(plan, at));
        if (x & number(plan, at + 1)) != number(plan, at + 2) {
            return false;
        }
    }
    true
}

// And those of the equal rows.
fn equal_meet(plan: &[u16], window: &[u16]) -> bool
    requires { 4352 ≤ length plan.now }
    ensures { result ≡ below (min (get_or plan.now 1 0) 1023) (equal_test plan.now window.now) }
{
    let n = number(plan, 1).min(EQUAL);
    for g in 0..n {
        let at = 4 * g + 260;
        let x = word(window, number(plan, at));
        let y = word(window, number(plan, at + 1));
        let shift = number(plan, at + 2) % 16;
        if ((x ^ (y << shift)) & number(plan, at + 3)) != 0 {
            return false;
        }
    }
    true
}

// Whether a window meets a plan: fixed bits first, then equal bits, out at the first failure.
pub fn meets(plan: &[u16], window: &[u16]) -> bool
    ensures { result ≡ meets_plan plan.now window.now }
{
    PLAN <= plan.len() && fixed_meet(plan, window) && equal_meet(plan, window)
}

// The bits of a word that are fixed, and what they are.
#[derive(Clone, Copy)]
struct Fixed {
    mask: u16,
    value: u16,
}

// The fixed bits of variable v, from its high bit on.
fn fixed_bits(links: &[u16], v: usize) -> Fixed
    requires { v < 64 }
    ensures { FixedBits links.now v result.mask result.value }
{
    let mut mask = 0;
    let mut value = 0;
    for q in 0..16 {
        let link = numbers::load(links, 16 * v + q + 2);
        let zero = usize::from(link == 0);
        let one = usize::from(link == 1);
        mask = 2 * mask + (zero + one);
        value = 2 * value + one;
    }
    Fixed {
        mask: numbers::narrow(mask),
        value: numbers::narrow(value),
    }
}

// Puts the row of variable v behind n rows, if it has fixed bits; how many there are then.
fn put_fixed_row(links: &[u16], v: usize, n: usize, plan: &mut [u16]) -> usize
    requires v_bound { v < 64 }
    requires n_bound { n < 64 }
    ensures fixed_row_put { 260 ≤ length plan.old → FixedRowPut links.now v n plan.old plan.new result }
    ensures counted { result ≡ n + cond (has_fixed (linked links.now) v) 1 0 }
{
    let row = fixed_bits(links, v);
    if row.mask == 0 {
        return n;
    }
    numbers::store_four(plan, 4 * n + 4, numbers::narrow(v), row.mask, row.value, 0);
    n + 1
}

// Puts the fixed rows of k variables; how many there are.
fn put_fixed(links: &[u16], k: usize, plan: &mut [u16]) -> usize
    requires { k ≤ 64 }
    ensures { PutsFixed links.now k plan.old plan.new result }
{
    let mut n = 0;
    for v in 0..k {
        n = put_fixed_row(links, v, n, plan);
    }
    n
}

// Puts the rows of k words and how many they are.
fn put_rows(links: &[u16], k: usize, plan: &mut [u16])
    requires { k ≤ 64 }
    ensures { PutsRows links.now k plan.old plan.new }
{
    let fixed = put_fixed(links, k, plan);
    let equal = groups::put_equal(links, k, plan);
    numbers::store(plan, 0, numbers::narrow(fixed));
    numbers::store(plan, 1, equal);
}

// Puts a plan that no window meets: one fixed row, whose mask has no bit and whose value is 1.
fn put_never(plan: &mut [u16])
    ensures { PutsNever plan.old plan.new }
{
    numbers::store_four(plan, 0, 1, 0, 0, 0);
    numbers::store_four(plan, 4, 0, 0, 1, 0);
}

// The plan of a table of k variables, from the classes of its bits.
fn plan_table(
    table: &[u16],
    widths: &[u16],
    places: &[u16],
    k: usize,
    links: &mut [u16],
    plan: &mut [u16],
)
    requires { k ≤ 64 }
    ensures { Plans table.now widths.now places.now links.old k plan.old plan.new }
{
    let mut form = [0u16; 4096];
    let taken = linking::table_classes(table, widths, places, &mut form[..], links);
    if taken.row < table.len() / 4 {
        put_never(plan);
        return;
    }
    put_rows(links, k, plan);
}

// How many words a window has: one for each variable, if there is one and each has 16 bits.
pub fn window_of(table: &[u16]) -> Option<usize>
    ensures { result ≡ some_window (rows_of table.now) }
{
    let mut k = 0;
    for r in 0..table.len() / 4 {
        let row = rows::row_at(table, r);
        let width = row.a;
        if row.kind == terms::VARIABLE {
            if width != 16 {
                return None;
            }
            k += 1;
        }
    }
    if k == 0 { None } else { Some(k) }
}

// The plan of a table that was checked and placed and whose variables have 16 bits each, in room for PLAN numbers: `meets` tells of a window
// of as many words as there are variables whether its bits satisfy the table.
pub fn prepare(table: &[u16], widths: &[u16], places: &[u16], bits: usize, plan: &mut [u16])
    ensures { Prepares table.now widths.now places.now bits plan.old plan.new }
{
    let mut links = [0u16; 1026];
    let sources = bits.min(1024) + 2;
    plan_table(
        table,
        widths,
        places,
        (bits / 16).min(64),
        &mut links[..sources],
        plan,
    );
}
