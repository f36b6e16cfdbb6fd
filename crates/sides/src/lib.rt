// The equations of a table: which row is the next one; the normal forms of its filled sides, each in a buffer of its own; and a reader that
// takes a side's bits, as sources and high end first, from the form where it was written.
#![tactic(auto)]

ghost use Rattle.std.specs.Prelude.{◌≡◌};
ghost use Rattle.terms.specs.Table.{rows_of, next_equation};
ghost use Rattle.sides.specs.inner.Reading.{first_in, next_in, risen, Stands, StepsOn};
ghost use Rattle.sides.specs.inner.Sides.{WritesSide, WritesSides};

// Where a form is read: the piece and, at one of its bits, the source, how far on the next bit's source is (0 in a fill, 1 in a part of a
// variable), and how many bits of the piece are left behind it.
#[derive(Clone, Copy)]
pub struct Reader {
    pub piece: u16,
    pub source: u16,
    pub step: u16,
    pub left: u16,
}

// The reader at the first bit of a piece.
pub fn begin(lows: &[u16], form: &[u16], piece: u16) -> Reader
    ensures { result ≡ first_in lows.now form.now piece }
{
    let p = pieces::piece_at(form, usize::from(piece));
    if p.kind < 2 {
        return Reader {
            piece,
            source: p.kind,
            step: 0,
            left: p.high,
        };
    }
    let low = numbers::load(lows, usize::from(p.variable));
    Reader {
        piece,
        source: low.saturating_sub(p.high),
        step: 1,
        left: p.high.saturating_sub(p.low),
    }
}

// The reader at the first bit of a form.
pub fn first(lows: &[u16], form: &[u16]) -> Reader
    ensures is { result ≡ first_in lows.now form.now 0 }
    ensures stands { Stands lows.now form.now 0 result }
{
    begin(lows, form, 0)
}

// The reader one bit on.
pub fn next(lows: &[u16], form: &[u16], at: Reader) -> Reader
    ensures is { result ≡ next_in lows.now form.now at }
    ensures stands { StepsOn lows.now form.now at result }
{
    if at.left == 0 {
        return begin(lows, form, at.piece.wrapping_add(1));
    }
    Reader {
        source: at.source.wrapping_add(at.step),
        left: at.left - 1,
        ..at
    }
}

// How many bits a reader passes at once, where their pairs say nothing.
pub const STRIDE: u16 = 8;

// The reader so many bits on in a part of a variable.
pub fn skip(at: Reader) -> Reader
    ensures { result ≡ risen 8 at }
{
    Reader {
        source: at.source.wrapping_add(STRIDE),
        left: at.left.saturating_sub(STRIDE),
        ..at
    }
}

// Writes the normal form of a row that is brought to the width of another to the beginning of a buffer: a fill of zeros, and the row's own
// form behind it.
fn side_form(
    table: &[u16],
    widths: &[u16],
    variables: &[u16],
    row: usize,
    other: usize,
    form: &mut [u16],
)
    ensures { WritesSide table.now widths.now variables.now row other form.old form.new }
{
    let own = numbers::load(widths, row);
    let lacking = numbers::load(widths, other).saturating_sub(own);
    let zeros = appender::put_fill(form, 0, 0, lacking);
    appender::put_form(table, widths, variables, row, form, zeros);
}

// Writes the normal forms of the filled sides of row r. How many bit pairs it has: none, if it is no equation.
pub fn put_sides(
    table: &[u16],
    widths: &[u16],
    variables: &[u16],
    r: usize,
    left: &mut [u16],
    right: &mut [u16],
) -> usize
    ensures { WritesSides table.now widths.now variables.now r
        left.old left.new right.old right.new result }
{
    let row = rows::row_at(table, r);
    if row.kind != terms::EQUATION {
        return 0;
    }
    let a = usize::from(row.a);
    let b = usize::from(row.b);
    side_form(table, widths, variables, a, b, left);
    side_form(table, widths, variables, b, a, right);
    let width = numbers::load(widths, a).max(numbers::load(widths, b));
    usize::from(width)
}

// The first equation from row `from` on and below row `rows`; where there is none, the greater of the two.
pub fn next_equation(table: &[u16], from: usize, rows: usize) -> usize
    ensures { result ≡ next_equation (rows_of table.now) from rows }
{
    for r in from..rows {
        if rows::row_at(table, r).kind == terms::EQUATION {
            return r;
        }
    }
    from.max(rows)
}
