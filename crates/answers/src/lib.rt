// Answers: what they mean, and the theorems that say so. There is no code here: specs/ has the definitions, proofs/ the theorems.
#![tactic(auto)]

// A row of the answer table: the variable; 0 or 1 for a fill of that bit, 2 for a fresh piece; its width; its fresh number, 0 for a fill.
#[derive(Clone, Copy)]
pub struct AnswerRow {
    pub variable: u16,
    pub kind: u16,
    pub width: u16,
    pub fresh: u16,
}

// How many numbers a row of the answer table has; and how many it has before its home and high bit are known.
pub const ROW: usize = 6;

pub const FOUR: usize = 4;

// A part of a run of numbers: where it starts and how many numbers it has.
#[repr(C)]
#[derive(Clone, Copy)]
pub struct Part {
    pub start: usize,
    pub len: usize,
}
