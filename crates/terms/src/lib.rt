// The term table: its rows, its limits, the records that calls return, and the faults of a table. There is no code here: specs/ has the
// definitions, proofs/ the theorems.
#![tactic(auto)]

// The kinds of a row.
// Kept: the C interface: Row's kind is a number. Where several kinds are told apart crate rules has the enum Kind; one alone is asked for here.
pub const VARIABLE: u16 = 0;

pub const CONSTANT: u16 = 1;

pub const CONCAT: u16 = 2;

pub const EXTRACT: u16 = 3;

pub const EQUATION: u16 = 4;

pub const VALUE: u16 = 5;

// The limits of a table.
pub const MAX_ROWS: usize = 512;

pub const MAX_WIDTH: usize = 1024;

pub const MAX_VALUE_WIDTH: usize = 16;

pub const MAX_VARIABLES: usize = 64;

pub const MAX_BITS: usize = 4096;

pub const MAX_EQUATIONS: usize = 64;

// The record that every call returns (document 01, "The solver's answer").
#[repr(C)]
#[derive(Clone, Copy)]
pub struct Record {
    pub outcome: u32,
    pub pieces: u32,
    pub fresh: u32,
    pub free: u32,
    pub ties: u32,
    pub row: u32,
}

// A row of the table (document 01: row record).
#[repr(C)]
#[derive(Clone, Copy)]
pub struct Row {
    pub kind: u16,
    pub a: u16,
    pub b: u16,
    pub c: u16,
}

// The fault of a table that is refused: it is not at most 512 whole rows, or the first rule broken and the row that
// breaks it. `rule_number` and `rule_row` have the number and the row of each.
#[derive(Clone, Copy, PartialEq, Eq)]
pub enum Fault {
    Shape,
    Kind(u16),
    Unused(u16),
    Named(u16),
    Width(u16),
    Value(u16),
    Bounds(u16),
    Count(u16),
}
