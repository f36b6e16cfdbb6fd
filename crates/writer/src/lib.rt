// Bytes and lines put into a buffer. A function is given a place in the buffer. It writes all of its bytes from that place on and gives the
// place behind them, or, where there is too little room, writes nothing and gives the place itself.
#![tactic(auto)]

ghost use Rattle.std.specs.Prelude.{◌≡◌, ◌+◌, ◌*◌, ◌/◌, length};
ghost use Rattle.sheets.specs.Print.{shown, record_text, answer_lines, answer_text};
ghost use Rattle.sheets.specs.inner.Printed.{fits, printed, behind, printed_in, behind_in};

use sheets::Text;
use terms::Record;

// Whether n lines of 80 bytes fit into a buffer of so many bytes from a place on.
fn lines_fit(n: usize, room: usize, at: usize) -> bool
    ensures { result ≡ fits (n * 80) room at }
{
    at <= room && n <= (room - at) / 80
}

// Writes bytes, if they fit.
pub fn put_bytes(bytes: &[u8], out: &mut [u8], at: usize) -> usize
    ensures place { result ≡ behind (length out.old) at bytes.now }
    ensures bytes { out.new ≡ printed out.old at bytes.now }
{
    if out.len() < at || out.len() - at < bytes.len() {
        return at;
    }
    let end = at + bytes.len();
    out[at..end].copy_from_slice(bytes);
    end
}

// Writes a line, if it fits. A length past the line's array counts as the array's.
pub fn put_line(line: Text, out: &mut [u8], at: usize) -> usize
    ensures place { result ≡ behind (length out.old) at (shown line) }
    ensures bytes { out.new ≡ printed out.old at (shown line) }
{
    let len = line.len.min(line.bytes.len());
    put_bytes(&line.bytes[..len], out, at)
}

// Writes the two lines of a record, if two lines of 80 bytes fit.
pub fn put_record(found: Record, out: &mut [u8], at: usize) -> usize
    ensures place { result ≡ behind_in 160 (length out.old) at (record_text found) }
    ensures bytes { out.new ≡ printed_in 160 out.old at (record_text found) }
{
    if !lines_fit(2, out.len(), at) {
        return at;
    }
    let behind = put_line(lines::record_names(), out, at);
    put_line(lines::record_values(found), out, behind)
}

// Writes a line for each row of an answer table, if as many lines of 80 bytes fit.
pub fn put_rows(answer: &[u16], out: &mut [u8], at: usize) -> usize
    ensures place { result ≡ behind_in (length answer.now / 6 * 80) (length out.old) at (answer_lines answer.now) }
    ensures bytes { out.new ≡ printed_in (length answer.now / 6 * 80) out.old at (answer_lines answer.now) }
{
    if !lines_fit(answer.len() / answers::ROW, out.len(), at) {
        return at;
    }
    let mut behind = at;
    for i in 0..answer.len() / answers::ROW {
        let row = i * answers::ROW;
        let line = lines::answer_values(
            numbers::load(answer, row),
            numbers::load(answer, row + 1),
            numbers::load(answer, row + 2),
            numbers::load(answer, row + 3),
            numbers::load(answer, row + 4),
            numbers::load(answer, row + 5),
        );
        behind = put_line(line, out, behind);
    }
    behind
}

// Writes an answer table, its names and then its rows, if as many lines of 80 bytes fit.
pub fn put_answer(answer: &[u16], out: &mut [u8], at: usize) -> usize
    ensures place { result ≡ behind_in ((length answer.now / 6 + 1) * 80) (length out.old) at (answer_text answer.now) }
    ensures bytes { out.new ≡ printed_in ((length answer.now / 6 + 1) * 80) out.old at (answer_text answer.now) }
{
    if !lines_fit(answer.len() / answers::ROW + 1, out.len(), at) {
        return at;
    }
    let behind = put_line(lines::answer_names(), out, at);
    put_rows(answer, out, behind)
}
