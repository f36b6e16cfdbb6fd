// What the methods of the text cursor are made of: a digit, in decimal or hexadecimal, whether a byte or the name kind stands at a place of a
// text, and four values placed in the columns of a row.
#![tactic(auto)]

ghost use Rattle.std.specs.Prelude.{◌≡◌, ◌≤◌, ◌<◌, length, get_or, unwrap_or, IfSome};
ghost use Rattle.sheets.specs.Text.{digit_of, hex_digit_of, sees, value_for, row_of_values, sees_kind, all_different};

use sheets::Order;
use terms::Row;

// The four values of a line, in the order in which they stand there.
// Kept: what may not change (value_for and row_of_values name Order's columns one by one, and take the values so): four fields and no array.
#[derive(Clone, Copy)]
pub struct Four {
    pub first: u16,
    pub second: u16,
    pub third: u16,
    pub fourth: u16,
}

// The value of a decimal digit.
#[tactic(auto, unfolding(sheets::specs::Text::digit_of))]
pub fn digit(byte: u8) -> Option<u32>
    ensures value { unwrap_or result 10 ≡ digit_of byte }
    ensures bound { IfSome result (λ d. d ≤ 9) }
{
    match byte {
        b'0'..=b'9' => Some(u32::from(byte - b'0')),
        _ => None,
    }
}

// The value of a hexadecimal digit, 0 to 9 and a to f.
#[tactic(auto, unfolding(sheets::specs::Text::digit_of, sheets::specs::Text::hex_digit_of))]
pub fn hex_digit(byte: u8) -> Option<u32>
    ensures value { unwrap_or result 16 ≡ hex_digit_of byte }
    ensures bound { IfSome result (λ d. d ≤ 15) }
{
    match byte {
        b'0'..=b'9' => Some(u32::from(byte - b'0')),
        b'a'..=b'f' => Some(u32::from(byte - b'a') + 10),
        _ => None,
    }
}

// The value of the decimal digit at a place, if one stands there.
#[tactic(auto, unfolding(sheets::specs::Text::digit_of))]
pub fn digit_at(text: &[u8], at: usize) -> Option<u32>
    ensures value { unwrap_or result 10 ≡ digit_of (get_or text.now at 0) }
    ensures bound { IfSome result (λ d. (d ≤ 9) × (at < length text.now)) }
{
    digit(*text.get(at)?)
}

// The value of the hexadecimal digit at a place, if one stands there.
#[tactic(auto, unfolding(sheets::specs::Text::digit_of, sheets::specs::Text::hex_digit_of))]
pub fn hex_digit_at(text: &[u8], at: usize) -> Option<u32>
    ensures value { unwrap_or result 16 ≡ hex_digit_of (get_or text.now at 0) }
    ensures bound { IfSome result (λ d. (d ≤ 15) × (at < length text.now)) }
{
    hex_digit(*text.get(at)?)
}

// Whether a byte stands at a place.
#[tactic(auto, unfolding(sheets::specs::Text::sees))]
pub fn sees_byte(text: &[u8], at: usize, byte: u8) -> bool
    ensures { result ≡ sees text.now at byte }
{
    text.get(at) == Some(&byte)
}

// Whether the bytes of "kind" stand at a place.
#[tactic(auto, using(sheets::proofs::Fields::seen_within), unfolding(sheets::specs::Text::sees_kind))]
pub fn sees_kind(text: &[u8], at: usize) -> bool
    ensures { result ≡ sees_kind text.now at }
{
    sees_byte(text, at, b'k')
        && sees_byte(text, at + 1, b'i')
        && sees_byte(text, at + 2, b'n')
        && sees_byte(text, at + 3, b'd')
}

// Whether four columns are different ones.
#[tactic(auto, unfolding(sheets::specs::Text::all_different))]
pub fn all_different(a: u16, b: u16, c: u16, d: u16) -> bool
    ensures { result ≡ all_different a b c d }
{
    a != b && a != c && a != d && b != c && b != d && c != d
}

// The value for one column.
#[tactic(auto, unfolding(sheets::specs::Text::value_for))]
pub fn pick(order: Order, column: u16, values: Four) -> u16
    ensures { result ≡ value_for order column values.first values.second values.third values.fourth }
{
    if order.first == column {
        values.first
    } else if order.second == column {
        values.second
    } else if order.third == column {
        values.third
    } else {
        values.fourth
    }
}

// The row that four values are.
#[tactic(auto, unfolding(sheets::specs::Text::row_of_values))]
pub fn place_values(order: Order, values: Four) -> Row
    ensures { result ≡ row_of_values order values.first values.second values.third values.fourth }
{
    Row {
        kind: pick(order, 0, values),
        a: pick(order, 1, values),
        b: pick(order, 2, values),
        c: pick(order, 3, values),
    }
}
