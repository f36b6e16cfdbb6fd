// The text cursor (document 01, "Lines are read from the first to the last"): a place in a text, passed by value. Each method gives what it
// found there and the cursor behind it, if it found it.
#![tactic(auto)]

ghost use Rattle.std.specs.Prelude.{◌≡◌, true, false, ◌+◌, leb, length, MatchOption};
ghost use Rattle.sheets.specs.Text.{sees, decimal_at, hexadecimal_at, number_at, field_at, line_at, column_at, name_at, names_at};
ghost use Rattle.cursor.specs.inner.Found.{number_found, name_found, names_found, line_found, four_found, decimal_field_at, decimal_line_at, field_read, line_read};

use scanner::Four;
use sheets::Order;
use terms::Row;

// A place in a text.
#[derive(Clone, Copy)]
pub struct Cursor {
    pub at: usize,
}

// In which spellings the numbers of a line are read: in decimal, which is quick, or in any.
#[derive(Clone, Copy)]
pub enum Spellings {
    Decimal,
    Any,
}

impl Cursor {
    // Whether nothing is left of the text.
    pub fn ended(self, text: &[u8]) -> bool
        ensures { result ≡ leb (length text.now) self.at }
    {
        text.len() <= self.at
    }

    // The cursor behind a byte, if that byte stands here.
    #[tactic(auto, using(sheets::proofs::Fields::seen_within))]
    fn past(self, text: &[u8], byte: u8) -> Option<Cursor>
        ensures { MatchOption result (sees text.now self.at byte ≡ false) (λ c. (sees text.now self.at byte ≡ true) × (c.at ≡ self.at + 1)) }
    {
        if scanner::sees_byte(text, self.at, byte) {
            Some(Cursor { at: self.at + 1 })
        } else {
            None
        }
    }

    // What stands behind h: one to four hexadecimal digits.
    #[tactic(auto, using(crate::proofs::Digits::no_hex, crate::proofs::Digits::hex_end, sheets::proofs::Numbers::hex_starts, sheets::proofs::Numbers::hex_over))]
    pub fn hexadecimal(self, text: &[u8]) -> Option<(u16, Cursor)>
        ensures { number_found result ≡ hexadecimal_at text.now self.at }
    {
        let from = self.at;
        let mut v = scanner::hex_digit_at(text, from)?;
        let mut i = from + 1;
        let mut more = 3u32;
        // Kept: the new form is no plainer: what is handed on is the place behind the digits, which the loop finds.
        while let Some(d) = scanner::hex_digit_at(text, i) {
            if more == 0 {
                return None;
            }
            more -= 1;
            v = v * 16 + d;
            i += 1;
        }
        Some((v as u16, Cursor { at: i }))
    }

    // A decimal number up to 65,535 without leading zeros.
    #[tactic(auto, using(crate::proofs::Digits::no_number, crate::proofs::Digits::zero_alone, crate::proofs::Digits::digits_end, sheets::proofs::Numbers::starts, sheets::proofs::Numbers::zero_digit, sheets::proofs::Numbers::over))]
    pub fn decimal(self, text: &[u8]) -> Option<(u16, Cursor)>
        ensures { number_found result ≡ decimal_at text.now self.at }
    {
        let from = self.at;
        let mut v = scanner::digit_at(text, from)?;
        let mut i = from + 1;
        if v == 0 {
            return match scanner::digit_at(text, i) {
                Some(_) => None,
                None => Some((0, Cursor { at: i })),
            };
        }
        // Kept: the new form is no plainer: what is handed on is the place behind the digits, which the loop finds.
        while let Some(d) = scanner::digit_at(text, i) {
            v = v * 10 + d;
            if 65535 < v {
                return None;
            }
            i += 1;
        }
        Some((v as u16, Cursor { at: i }))
    }

    // A number up to 65,535: the letter h and one to four hexadecimal digits, or in decimal.
    #[tactic(auto, using(sheets::proofs::Numbers::h_seen, sheets::proofs::Numbers::h_unseen))]
    pub fn number(self, text: &[u8]) -> Option<(u16, Cursor)>
        ensures { number_found result ≡ number_at text.now self.at }
    {
        match self.past(text, b'h') {
            Some(behind) => behind.hexadecimal(text),
            None => self.decimal(text),
        }
    }

    // A number and the byte behind it.
    #[tactic(auto, unfolding(sheets::specs::Text::field_at))]
    pub fn field(self, text: &[u8], end: u8) -> Option<(u16, Cursor)>
        ensures { number_found result ≡ field_at text.now self.at end }
    {
        let (v, behind) = self.number(text)?;
        Some((v, behind.past(text, end)?))
    }

    // A decimal number and the byte behind it.
    #[tactic(auto, unfolding(crate::specs::inner::Found::decimal_field_at))]
    pub fn decimal_field(self, text: &[u8], end: u8) -> Option<(u16, Cursor)>
        ensures { number_found result ≡ decimal_field_at text.now self.at end }
    {
        let (v, behind) = self.decimal(text)?;
        Some((v, behind.past(text, end)?))
    }
}

// A line is read in decimal first, which is quick, and only where that fails in any spelling.
impl Cursor {
    // A number in one of these spellings and the byte behind it.
    fn field_in(self, text: &[u8], spellings: Spellings, end: u8) -> Option<(u16, Cursor)>
        ensures { number_found result ≡ field_read spellings text.now self.at end }
    {
        match spellings {
            Spellings::Decimal => self.decimal_field(text, end),
            Spellings::Any => self.field(text, end),
        }
    }

    // The four values of a line in these spellings. Inlined, each of its two callers asks for its spelling once, and not at every number.
    #[inline(always)]
    #[tactic(auto, unfolding(crate::specs::inner::Found::line_read))]
    fn four_in(self, text: &[u8], spellings: Spellings) -> Option<(Four, Cursor)>
        ensures { (order : Order) → four_found order result ≡ line_read spellings text.now order self.at }
    {
        let (first, cursor) = self.field_in(text, spellings, sheets::SPACE)?;
        let (second, cursor) = cursor.field_in(text, spellings, sheets::SPACE)?;
        let (third, cursor) = cursor.field_in(text, spellings, sheets::SPACE)?;
        let (fourth, cursor) = cursor.field_in(text, spellings, sheets::NEWLINE)?;
        let values = Four {
            first,
            second,
            third,
            fourth,
        };
        Some((values, cursor))
    }

    // The four values of a line, if they are decimal.
    #[tactic(auto, unfolding(crate::specs::inner::Found::line_read, crate::specs::inner::Found::decimal_line_at))]
    pub fn decimal_four(self, text: &[u8]) -> Option<(Four, Cursor)>
        ensures { (order : Order) → four_found order result ≡ decimal_line_at text.now order self.at }
    {
        self.four_in(text, Spellings::Decimal)
    }

    // The four values of a line, in any spelling.
    #[tactic(auto, unfolding(crate::specs::inner::Found::line_read, sheets::specs::Text::line_at))]
    pub fn spelled_four(self, text: &[u8]) -> Option<(Four, Cursor)>
        ensures { (order : Order) → four_found order result ≡ line_at text.now order self.at }
    {
        self.four_in(text, Spellings::Any)
    }

    // The four values of a line.
    pub fn four(self, text: &[u8]) -> Option<(Four, Cursor)>
        ensures { (order : Order) → four_found order result ≡ line_at text.now order self.at }
    {
        match self.decimal_four(text) {
            Some(found) => Some(found),
            None => self.spelled_four(text),
        }
    }

    // A line of values, its columns placed.
    pub fn line(self, text: &[u8], order: Order) -> Option<(Row, Cursor)>
        ensures { line_found result ≡ line_at text.now order self.at }
    {
        let (values, behind) = self.four(text)?;
        Some((scanner::place_values(order, values), behind))
    }
}

impl Cursor {
    // The column that is named here, 0 to 3 for kind, a, b and c.
    #[tactic(auto, using(sheets::proofs::Fields::kind_within), unfolding(sheets::specs::Text::column_at))]
    pub fn column(self, text: &[u8]) -> Option<(u16, Cursor)>
        ensures { name_found result ≡ column_at text.now self.at }
    {
        if let Some(behind) = self.past(text, b'a') {
            Some((1, behind))
        } else if let Some(behind) = self.past(text, b'b') {
            Some((2, behind))
        } else if let Some(behind) = self.past(text, b'c') {
            Some((3, behind))
        } else if scanner::sees_kind(text, self.at) {
            Some((0, Cursor { at: self.at + 4 }))
        } else {
            None
        }
    }

    // A name and the byte behind it.
    #[tactic(auto, unfolding(sheets::specs::Text::name_at))]
    pub fn name(self, text: &[u8], end: u8) -> Option<(u16, Cursor)>
        ensures { name_found result ≡ name_at text.now self.at end }
    {
        let (column, behind) = self.column(text)?;
        Some((column, behind.past(text, end)?))
    }

    // The line of names: each of the four once.
    #[tactic(auto, unfolding(sheets::specs::Text::names_at))]
    pub fn names(self, text: &[u8]) -> Option<(Order, Cursor)>
        ensures { names_found result ≡ names_at text.now self.at }
    {
        let (first, cursor) = self.name(text, sheets::SPACE)?;
        let (second, cursor) = cursor.name(text, sheets::SPACE)?;
        let (third, cursor) = cursor.name(text, sheets::SPACE)?;
        let (fourth, cursor) = cursor.name(text, sheets::NEWLINE)?;
        let order = Order {
            first,
            second,
            third,
            fourth,
        };
        if scanner::all_different(first, second, third, fourth) {
            Some((order, cursor))
        } else {
            None
        }
    }
}
