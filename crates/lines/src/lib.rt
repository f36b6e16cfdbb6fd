// The lines that are printed, of a record and of an answer table, each made byte by byte and passed by value.
#![tactic(auto)]

ghost use Rattle.std.specs.Prelude.{◌≡◌, []};
ghost use Rattle.lines.specs.inner.Push.{pushed, push_all, fields};
ghost use Rattle.sheets.specs.Print.{field, line_of, record_names, record_values, answer_names, answer_values};
ghost use Rattle.sheets.specs.Writing.{digits};

use sheets::Text;
use terms::Record;

// One byte more, if there is room.
// Kept: functions: Text is a type of crate sheets, so fmt::Write may not be given to it here, and a trait of our own is no plainer.
fn push(mut t: Text, byte: u8) -> Text
    ensures { result ≡ pushed t byte }
{
    if t.len < t.bytes.len() {
        t.bytes[t.len] = byte;
        t.len += 1;
    }
    t
}

// The digits of n, at most so many.
fn put_digits(t: Text, n: u32, most: usize) -> Text
    ensures { result ≡ push_all t (digits most n) }
{
    if most == 0 {
        return t;
    }
    if n < 10 {
        return push(t, b'0' + n as u8);
    }
    let rest = put_digits(t, n / 10, most - 1);
    push(rest, b'0' + (n % 10) as u8)
}

// A number and the byte behind it.
pub fn put_number(t: Text, n: u32, end: u8) -> Text
    ensures { result ≡ push_all t (field n end) }
{
    push(put_digits(t, n, 10), end)
}

// These bytes more, as far as there is room.
fn put_bytes(t: Text, bytes: &[u8]) -> Text
    ensures { result ≡ push_all t bytes.now }
{
    let mut line = t;
    for byte in bytes {
        line = push(line, *byte);
    }
    line
}

// A line without bytes.
pub fn empty() -> Text
    ensures { result ≡ line_of [] }
{
    Text {
        bytes: [0; 80],
        len: 0,
    }
}

// The line of some numbers: a space behind each but the last, and behind that the line's end.
pub fn values(numbers: &[u32]) -> Text
    ensures { result ≡ push_all (line_of []) (fields numbers.now) }
{
    let mut line = empty();
    for (i, n) in numbers.iter().enumerate() {
        let end = if i + 1 == numbers.len() {
            sheets::NEWLINE
        } else {
            sheets::SPACE
        };
        line = put_number(line, *n, end);
    }
    line
}

// The line of the record's names.
pub fn record_names() -> Text
    ensures { result ≡ line_of record_names }
{
    put_bytes(empty(), b"outcome pieces fresh free ties row\n")
}

// The line of the record's values.
pub fn record_values(r: Record) -> Text
    ensures { result ≡ line_of (record_values r) }
{
    values(&[r.outcome, r.pieces, r.fresh, r.free, r.ties, r.row])
}

// The line of the answer table's names.
pub fn answer_names() -> Text
    ensures { result ≡ line_of answer_names }
{
    put_bytes(empty(), b"variable kind width fresh home high\n")
}

// The line of one row of the answer table.
pub fn answer_values(variable: u16, kind: u16, width: u16, fresh: u16, home: u16, high: u16) -> Text
    ensures { result ≡ line_of (answer_values variable kind width fresh home high) }
{
    values(&[
        u32::from(variable),
        u32::from(kind),
        u32::from(width),
        u32::from(fresh),
        u32::from(home),
        u32::from(high),
    ])
}
