// The equal rows of a plan (document 02, (ii)): for each pair of words and each shift one mask of the bits that are to be the same. Place i
// is bit 15 - i % 16 of word i / 16.
#![tactic(auto)]

ghost use Rattle.std.specs.Prelude.{◌≡◌, ◌+◌, ◌-◌, ◌*◌, ◌^◌, ◌≤◌, ◌<◌, length};
ghost use Rattle.groups.specs.inner.Places.{PutsEqual};
ghost use Rattle.groups.specs.inner.Counts.{linked};
ghost use Rattle.groups.specs.inner.Groups.{GroupOf, is_row_of, last_row, Added, Covers, PutsPlace, Counts};

// An equal row: word x, word y, by how many bits y is shifted upwards, and the mask of the bits that are then the same.
#[derive(Clone, Copy)]
struct Group {
    x: u16,
    y: u16,
    shift: u16,
    mask: u16,
}

// The equal row of one bit, that of place q of word x.
fn upward(x: u16, y: u16, shift: u16, q: u16) -> Group
    requires { q < 16 }
    ensures { (result.x ≡ x) × (result.y ≡ y) × (result.shift ≡ shift) × (result.mask ≡ 2 ^ (15 - q)) }
{
    Group {
        x,
        y,
        shift,
        mask: 1u16 << (15 - q),
    }
}

// The equal row of place i and its representative r, a lower place. The words are turned so that the shift is upwards.
fn group_of(i: u16, r: u16) -> Group
    requires { 2 ≤ r }
    ensures { GroupOf i r result.x result.y result.shift result.mask }
{
    let j = r - 2;
    let q = i % 16;
    let p = j % 16;
    if q <= p {
        return upward(i / 16, j / 16, p - q, q);
    }
    upward(j / 16, i / 16, q - p, p)
}

// Whether equal row g is one of words x and y at a shift. Rows of one word differ mostly in their shift.
fn row_of(plan: &[u16], g: u16, x: u16, y: u16, shift: u16) -> bool
    requires { 4 * g + 263 < length plan.now }
    ensures { result ≡ is_row_of plan.now x y shift g }
{
    let at = 4 * usize::from(g) + 260;
    plan[at + 2] == shift && plan[at + 1] == y && plan[at] == x
}

// The last equal row of words x and y at a shift, of rows from .. count.
fn find_group(plan: &[u16], from: u16, count: u16, x: u16, y: u16, shift: u16) -> Option<u16>
    requires { 4 * count + 263 < length plan.now }
    ensures { result ≡ last_row plan.now x y shift from count }
{
    for g in (from..count).rev() {
        if row_of(plan, g, x, y, shift) {
            return Some(g);
        }
    }
    None
}

// Adds an equal row of one bit to count rows, of which those from `from` on are looked through: its bit goes to the row of the same words
// and shift, or it is one row more. How many rows there are then.
fn add_group(plan: &mut [u16], from: u16, count: u16, group: Group) -> u16
    requires count_bound { count < 1023 }
    requires in_bounds { 4352 ≤ length plan.old }
    ensures { Added group.x group.y group.shift group.mask plan.old from count plan.new result }
{
    match find_group(plan, from, count, group.x, group.y, group.shift) {
        Some(g) => {
            plan[4 * usize::from(g) + 263] |= group.mask;
            count
        }
        None => {
            let at = 4 * usize::from(count) + 260;
            numbers::store_four(plan, at, group.x, group.y, group.shift, group.mask);
            count + 1
        }
    }
}

// Puts the equal row of place i, if it has one: a fixed place has none, nor one that is its own representative.
fn put_place(links: &[u16], i: u16, from: u16, count: u16, plan: &mut [u16]) -> u16
    requires i_bound { i < 1024 }
    requires count_bound { count ≤ i - 1 }
    requires in_bounds { 4352 ≤ length plan.old }
    ensures upper_bound { (result ≤ i) × Covers links.now i (i + 1) plan.old count plan.new result }
    ensures rows { PutsPlace (linked links.now) i plan.old from count plan.new result }
{
    let r = numbers::load(links, usize::from(i) + 2);
    if r < 2 || i + 2 <= r {
        return count;
    }
    add_group(plan, from, count, group_of(i, r))
}

// Puts the equal rows of the places of word v.
fn put_word(links: &[u16], v: u16, count: u16, plan: &mut [u16]) -> u16
    requires v_bound { v < 64 }
    requires count_bound { count ≤ 16 * v - 1 }
    requires in_bounds { 4352 ≤ length plan.old }
    ensures upper_bound { (result ≤ 16 * v + 15) × Covers links.now (16 * v) (16 * v + 16) plan.old count plan.new result }
    ensures rows { Counts (linked links.now) (16 * v) (16 * v + 16) count result }
{
    let mut n = count;
    for i in 16 * v..16 * v + 16 {
        n = put_place(links, i, count, n, plan);
    }
    n
}

// Puts the equal rows of the places of k words; how many they are.
pub fn put_equal(links: &[u16], k: usize, plan: &mut [u16]) -> u16
    ensures { PutsEqual links.now k plan.old plan.new result }
{
    if plan.len() < 4352 || 64 < k {
        return 0;
    }
    let mut count = 0;
    for v in 0..k as u16 {
        count = put_word(links, v, count, plan);
    }
    count
}
