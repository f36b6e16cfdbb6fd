// The pieces of a normal form in a buffer of numbers: one is read, written, or appended, and made one with the last piece where they meet.
#![tactic(auto)]

ghost use Rattle.std.specs.Prelude.{◌≡◌};
ghost use Rattle.forms.specs.Form.{meets};
ghost use Rattle.pieces.specs.inner.Pieces.{piece_at, put_piece, merged_in, pushed_count, pushed_numbers};

use forms::Piece;

// The numbers that a piece takes.
// Kept: the C interface: the kind of a piece, 0, 1 or 2, is one of the numbers of a form that a host reads.
pub const LENGTH: usize = 4;

// Whether two neighbours are one piece.
fn meet(p: Piece, q: Piece) -> bool
    ensures { result ≡ meets p q }
{
    p.kind == q.kind
        && (p.kind < 2
            || (p.variable == q.variable && usize::from(p.low) == usize::from(q.high) + 1))
}

// The one piece of two that meet.
fn merge(p: Piece, q: Piece) -> Piece
    ensures { result ≡ merged_in p q }
{
    let high = if p.kind < 2 {
        p.high.wrapping_add(q.high).wrapping_add(1)
    } else {
        p.high
    };
    Piece {
        high,
        low: q.low,
        ..p
    }
}

// Piece i of a buffer, all 0 past its end.
pub fn piece_at(out: &[u16], i: usize) -> Piece
    ensures { result ≡ piece_at out.now i }
{
    if out.len() / LENGTH <= i {
        return Piece::default();
    }
    let from = i * LENGTH;
    Piece {
        kind: out[from],
        variable: out[from + 1],
        high: out[from + 2],
        low: out[from + 3],
    }
}

// Writes piece i of a buffer, if it is there.
pub fn put_piece(out: &mut [u16], i: usize, p: Piece)
    ensures { out.new ≡ put_piece out.old i p }
{
    if i < out.len() / LENGTH {
        numbers::store_four(out, i * LENGTH, p.kind, p.variable, p.high, p.low);
    }
}

// Appends a piece to the n pieces of a buffer; how many there are then.
pub fn push(out: &mut [u16], n: usize, q: Piece) -> usize
    ensures count { result ≡ pushed_count out.old n q }
    ensures numbers { out.new ≡ pushed_numbers out.old n q }
{
    if out.len() / LENGTH <= n {
        return n;
    }
    if n == 0 {
        put_piece(out, 0, q);
        return 1;
    }
    let last = piece_at(out, n - 1);
    if meet(last, q) {
        put_piece(out, n - 1, merge(last, q));
        return n;
    }
    put_piece(out, n, q);
    n + 1
}
