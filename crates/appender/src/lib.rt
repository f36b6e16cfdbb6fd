// Normal forms appended to a buffer (document 01, "Normal form"; document 001, section 5 and figure 3).
// Normalising a row and normalising a cut of a row call each other, a cut of a join by way of its parts, and the row number falls from each
// of their calls to the next. Each leaf, a variable or a constant or a part of one, is appended to the form so far as one piece, a value or a
// part of one as one piece for each bit, and each piece is made one with the last one where they meet. So the two phases of figure 3 are one
// pass, and what stands in the buffer is always the normal form of the bits that were met.
#![tactic(auto)]

ghost use Rattle.std.specs.Prelude.{◌≡◌};
ghost use Rattle.forms.specs.Form.{fill};
ghost use Rattle.appender.specs.inner.Cuts.{is_leaf, leaf_piece, AppendsFill, AppendsBits, AppendsLeaf, AppendsForm, AppendsCut, left_bits, right_bits, AppendsPart, AppendsParts};

use forms::Piece;
use terms::Row;

// Bits high to low of a row.
#[derive(Clone, Copy)]
struct Cut {
    row: u16,
    high: u16,
    low: u16,
}

// What a cut of a join has of one part: bits high to low of a row of this width. No bits, if the width is 0.
#[derive(Clone, Copy)]
struct Part {
    row: u16,
    width: u16,
    high: u16,
    low: u16,
}

// The lists that forms are made from: a table, the width of each row, and the variables before it.
#[derive(Clone, Copy)]
struct Lists<'a> {
    table: &'a [u16],
    widths: &'a [u16],
    variables: &'a [u16],
}

// What a cut of a join has of the left part, which is this row, where the parts are so wide.
fn left_bits(row: u16, left: u16, right: u16, cut: Cut) -> Part
    ensures { result ≡ left_bits row left right cut }
{
    if cut.high < right {
        return Part {
            row,
            width: 0,
            high: 0,
            low: 0,
        };
    }
    Part {
        row,
        width: left,
        high: cut.high - right,
        low: cut.low.saturating_sub(right),
    }
}

// The same of the right part.
fn right_bits(row: u16, right: u16, cut: Cut) -> Part
    ensures { result ≡ right_bits row right cut }
{
    if right <= cut.low {
        return Part {
            row,
            width: 0,
            high: 0,
            low: 0,
        };
    }
    let high = if cut.high < right {
        cut.high
    } else {
        right - 1
    };
    Part {
        row,
        width: right,
        high,
        low: cut.low,
    }
}

// Whether a row of this kind names no other row: a variable, a constant or a value.
#[tactic(auto, unfolding(crate::specs::inner::Cuts::is_leaf))]
fn leaf(kind: u16) -> bool
    ensures { result ≡ is_leaf kind }
{
    matches!(kind, terms::VARIABLE | terms::CONSTANT | terms::VALUE)
}

// The piece that bits high to low of a variable or a constant are, where v is a variable's number.
fn leaf_piece(r: Row, v: u16, high: u16, low: u16) -> Piece
    ensures { result ≡ leaf_piece r v high low }
{
    if r.kind == terms::VARIABLE {
        return Piece {
            kind: 2,
            variable: v,
            high,
            low,
        };
    }
    Piece {
        kind: r.a,
        high: high.saturating_sub(low),
        ..Piece::default()
    }
}

// The piece of one bit.
fn bit_piece(bit: u16) -> Piece
    ensures { result ≡ fill bit 0 }
{
    Piece {
        kind: bit,
        ..Piece::default()
    }
}

// Appends copies of a bit, as one piece.
pub fn put_fill(out: &mut [u16], n: usize, bit: u16, count: u16) -> usize
    ensures { AppendsFill bit count n out.old result out.new }
{
    if count == 0 {
        return n;
    }
    let fill = Piece {
        kind: bit,
        high: count - 1,
        ..Piece::default()
    };
    pieces::push(out, n, fill)
}

// Appends bits high to low of a number, one by one from the high end.
fn put_bits(number: u16, high: u16, low: u16, out: &mut [u16], n: usize) -> usize
    ensures { AppendsBits number high low n out.old result out.new }
{
    let mut m = n;
    for k in (usize::from(low)..usize::from(high) + 1).rev() {
        m = pieces::push(out, m, bit_piece(numbers::bit_of(number, k)));
    }
    m
}

// Appends bits high to low of a leaf, where v is a variable's number.
fn put_leaf(r: Row, v: u16, high: u16, low: u16, out: &mut [u16], n: usize) -> usize
    ensures { AppendsLeaf r v high low n out.old result out.new }
{
    if r.kind == terms::VALUE {
        return put_bits(r.a, high, low, out, n);
    }
    pieces::push(out, n, leaf_piece(r, v, high, low))
}

// Appends the normal form of a row.
pub fn put_form(
    table: &[u16],
    widths: &[u16],
    variables: &[u16],
    row: usize,
    out: &mut [u16],
    n: usize,
) -> usize
    ensures { AppendsForm table.now widths.now variables.now row n out.old result out.new }
{
    let lists = Lists {
        table,
        widths,
        variables,
    };
    put_row(&lists, row, out, n)
}

// The same, from the lists together.
#[cycle(normalizing)]
fn put_row(lists: &Lists, row: usize, out: &mut [u16], n: usize) -> usize
    ensures { AppendsForm lists.now.table.now lists.now.widths.now lists.now.variables.now row n out.old result out.new }
{
    let r = rows::row_at(lists.table, row);
    if leaf(r.kind) {
        let v = numbers::load(lists.variables, row);
        let high = numbers::load(lists.widths, row).saturating_sub(1);
        return put_leaf(r, v, high, 0, out, n);
    }
    let a = usize::from(r.a);
    if row <= a {
        return n;
    }
    if r.kind == terms::EXTRACT {
        return put_cut(lists, r.a, r.b, r.c, out, n);
    }
    let b = usize::from(r.b);
    if row <= b {
        return n;
    }
    let m = put_row(lists, a, out, n);
    put_row(lists, b, out, m)
}

// Appends the normal form of bits high to low of a row: a cut of a cut is one cut of the row that is named there. They are passed as three
// numbers and not as a `Cut`, whose address would go along: so the call for a cut of a cut is a loop, and takes no stack.
#[cycle(normalizing)]
fn put_cut(lists: &Lists, row: u16, high: u16, low: u16, out: &mut [u16], n: usize) -> usize
    ensures { AppendsCut lists.now.table.now lists.now.widths.now lists.now.variables.now (record { row = row; high = high; low = low }) n out.old result out.new }
{
    let place = usize::from(row);
    let r = rows::row_at(lists.table, place);
    if leaf(r.kind) {
        let v = numbers::load(lists.variables, place);
        return put_leaf(r, v, high, low, out, n);
    }
    let a = usize::from(r.a);
    if place <= a {
        return n;
    }
    if r.kind == terms::EXTRACT {
        let high = high.wrapping_add(r.c);
        let low = low.wrapping_add(r.c);
        return put_cut(lists, r.a, high, low, out, n);
    }
    let b = usize::from(r.b);
    if place <= b {
        return n;
    }
    let cut = Cut { row, high, low };
    let width = numbers::load(lists.widths, b);
    let left = left_bits(r.a, numbers::load(lists.widths, a), width, cut);
    let right = right_bits(r.b, width, cut);
    put_join(lists, left, right, out, n)
}

// Appends the normal form of what a cut of a join has of its parts.
#[cycle(normalizing)]
fn put_join(lists: &Lists, left: Part, right: Part, out: &mut [u16], n: usize) -> usize
    ensures { AppendsParts lists.now.table.now lists.now.widths.now lists.now.variables.now left right n out.old result out.new }
{
    let m = put_part(lists, left, out, n);
    put_part(lists, right, out, m)
}

// Appends the normal form of what a cut has of one part: of the whole row, if that is all its bits, else of a cut of it.
#[cycle(normalizing)]
fn put_part(lists: &Lists, part: Part, out: &mut [u16], n: usize) -> usize
    ensures { AppendsPart lists.now.table.now lists.now.widths.now lists.now.variables.now part n out.old result out.new }
{
    let width = part.width;
    if width == 0 {
        return n;
    }
    if part.high.saturating_sub(part.low) == width - 1 {
        return put_row(lists, usize::from(part.row), out, n);
    }
    put_cut(lists, part.row, part.high, part.low, out, n)
}
