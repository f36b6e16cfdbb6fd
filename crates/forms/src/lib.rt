// Normal forms: what they are, and the theorems that say so. There is no code here: specs/ has the definitions, proofs/ the theorems.
#![tactic(auto)]

// A piece of a normal form: kind 0 or 1 for a fill of that bit, 2 for bits high to low of a variable.
#[derive(Clone, Copy, Default)]
pub struct Piece {
    pub kind: u16,
    pub variable: u16,
    pub high: u16,
    pub low: u16,
}
