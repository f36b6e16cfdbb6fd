// The equations of a table taken one after the other (document 01, "The solver's answer"). The bit pairs of each are read from the normal
// forms of its sides, where these were written (crate sides); each pair joins the classes of its two bits (classes), until two different
// fixed bits meet.
#![tactic(auto)]

ghost use Rattle.std.specs.Prelude.{length};
ghost use Rattle.taking.specs.inner.Equations.{TellsAlike, TakesEquations, LeavesForms};

use sides::Reader;

// How far the equations were taken: to the row at which two different fixed bits met, or to the row at which taking was to end; and the ties
// before it.
#[derive(Clone, Copy)]
pub struct Taken {
    pub row: usize,
    pub ties: usize,
}

// How many pairs are passed at once where they say nothing.
const STRIDE: usize = 8;

// Whether the next eight pairs of two readers link alike: the two sources of each link to the same one, so that the pair says nothing. Asked
// only within a piece of each form, both of them parts of variables.
fn alike(links: &[u16], a: Reader, b: Reader) -> bool
    ensures { TellsAlike links.now a b result }
{
    if a.left < sides::STRIDE || b.left < sides::STRIDE {
        return false;
    }
    let s = usize::from(a.source);
    let t = usize::from(b.source);
    if links.len() < s + STRIDE || links.len() < t + STRIDE {
        return false;
    }
    if a.step != 1 || b.step != 1 {
        return false;
    }
    let x = &links[s..s + STRIDE];
    let y = &links[t..t + STRIDE];
    let mut same: usize = 0;
    // Kept: the new form is no plainer: all() would leave at the first pair that differs, and this count of eight has no branch.
    for i in 0..STRIDE {
        same += usize::from(x[i] == y[i]);
    }
    same == STRIDE
}

// Takes the equations of a table from row `from` on and below row `to`, in row order, and the bit pairs of each from the high end, from the
// forms of its two sides: the classes of their bits are joined. Two different fixed bits that meet end it. Eight pairs that say nothing are
// passed at once. The forms stay as they were written.
pub fn take_equations(
    table: &[u16],
    widths: &[u16],
    variables: &[u16],
    lows: &[u16],
    from: usize,
    to: usize,
    left: &mut [u16],
    right: &mut [u16],
    links: &mut [u16],
) -> Taken
    ensures classes { TakesEquations table.now widths.now variables.now lows.now from to (length left.old) (length right.old) links.old links.new result.row result.ties }
    ensures forms { LeavesForms table.now widths.now variables.now from to left.old left.new right.old right.new result.row }
{
    let rows = to.min(terms::MAX_ROWS);
    let mut ties: usize = 0;
    let mut r = sides::next_equation(table, from, rows);
    // Kept: the new form is no plainer: the loop steps by a found length, to the next equation and, within it, by one pair or by eight.
    'solve: while r < rows {
        let pairs = sides::put_sides(table, widths, variables, r, left, right);
        let width = pairs.min(terms::MAX_WIDTH);
        let mut a = sides::first(lows, left);
        let mut b = sides::first(lows, right);
        let mut found: usize = 0;
        let mut k: usize = 0;
        while k < width {
            if alike(links, a, b) {
                a = sides::skip(a);
                b = sides::skip(b);
                k = (k + STRIDE).min(width);
            } else {
                match classes::take_pair(links, a.source, b.source) {
                    classes::Pairing::Nothing => {}
                    classes::Pairing::Tie => {
                        found += 1;
                    }
                    classes::Pairing::Conflict => {
                        break 'solve;
                    }
                }
                a = sides::next(lows, left, a);
                b = sides::next(lows, right, b);
                k += 1;
            }
        }
        ties += found;
        r = sides::next_equation(table, r + 1, rows);
    }
    Taken { row: r, ties: ties }
}
