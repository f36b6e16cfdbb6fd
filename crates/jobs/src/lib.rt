// A job kept open (document 02, (viii)): a table's equations taken one by one, and the theorems on it. There is no code here: specs/ has the
// definitions, proofs/ the theorems.
#![tactic(auto)]

// The job's own record: the row of the next equation, and the ties so far.
#[repr(C)]
#[derive(Clone, Copy)]
pub struct Job {
    pub next: u32,
    pub ties: u32,
}
