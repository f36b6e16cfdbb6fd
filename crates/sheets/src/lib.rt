// Sheets (document 01, "Sheet and program"): what is found in a text, and the lines that are printed. There is no code here: specs/ has the
// definitions, proofs/ the theorems.
#![tactic(auto)]

// The bytes that separate values and end a line.
pub const SPACE: u8 = 32;

pub const NEWLINE: u8 = 10;

// Which column stands first, second, third and fourth.
#[derive(Clone, Copy)]
pub struct Order {
    pub first: u16,
    pub second: u16,
    pub third: u16,
    pub fourth: u16,
}

// Why a sheet is refused: too many bytes, a wrong line of names, a 513th line, or the first wrong line. Reading a sheet finds this or how many
// rows it has; `sheet_number` and `sheet_row` have document 01's number and row for each.
#[derive(Clone, Copy)]
pub enum SheetError {
    TooLong,
    WrongNames,
    TooMany,
    WrongLine(u16),
}

// A line of text: its first len bytes.
#[derive(Clone, Copy)]
pub struct Text {
    pub bytes: [u8; 80],
    pub len: usize,
}
