// The first cut of an equation (document 001, section 6, "slicing"): its two filled sides, as the normal forms that crate sides writes, are
// cut wherever either one has a border, and nowhere else. Two readers go from border to border.
#![tactic(auto)]

ghost use Rattle.std.specs.Prelude.{◌≡◌, cond, ◌+◌, ◌%◌, eqb};
ghost use Rattle.slicer.specs.inner.Cutting.{passed_in, PutsSlice, CutsSides};

use sides::Reader;

// The numbers that a slice takes: its left source, its right source, its width.
pub const LENGTH: usize = 3;

// The source n bits on in a piece: that of a fill stands still.
fn moved(at: Reader, n: u16) -> u16
    ensures { result ≡ cond (eqb at.step 0) at.source ((at.source + n) % 65536) }
{
    if at.step == 0 {
        at.source
    } else {
        at.source.wrapping_add(n)
    }
}

// The reader n bits on, in its piece or at the first bit of the next one.
fn pass(lows: &[u16], form: &[u16], at: Reader, n: u16) -> Reader
    ensures { result ≡ passed_in lows.now form.now at n }
{
    if at.left < n {
        sides::begin(lows, form, at.piece.wrapping_add(1))
    } else {
        Reader {
            source: moved(at, n),
            left: at.left - n,
            ..at
        }
    }
}

// Writes slice i of a cut, if there is room.
fn put_slice(cuts: &mut [u16], i: usize, left: u16, right: u16, width: u16)
    ensures { PutsSlice i left right width cuts.old cuts.new }
{
    if i < cuts.len() / LENGTH {
        let at = i * LENGTH;
        numbers::store(cuts, at, left);
        numbers::store(cuts, at + 1, right);
        numbers::store(cuts, at + 2, width);
    }
}

// Writes the first cut of an equation whose filled sides have these forms and so many bits. How many slices it has.
pub fn cut_sides(lows: &[u16], left: &[u16], right: &[u16], width: usize, cuts: &mut [u16]) -> usize
    ensures { CutsSides lows.now left.now right.now width cuts.old cuts.new result }
{
    let bits = width.min(terms::MAX_WIDTH);
    let mut a = sides::first(lows, left);
    let mut b = sides::first(lows, right);
    let mut n: usize = 0;
    let mut k: usize = 0;
    // Kept: a `while`, since it goes from border to border by two readers, on by a found width
    while k < bits {
        let w = a.left.min(b.left).wrapping_add(1);
        put_slice(cuts, n, a.source, b.source, w);
        a = pass(lows, left, a, w);
        b = pass(lows, right, b, w);
        n += 1;
        k += usize::from(w.max(1));
    }
    n
}
