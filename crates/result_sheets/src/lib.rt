// Result sheets for the panel folder (document 02, request (iv)): what stands on each page, and the theorems that say so. There is no code
// here: specs/ has the definitions, proofs/ the theorems.
#![tactic(auto)]

// The bytes of a page.
pub const BYTES: usize = 2460;

// A page.
#[repr(C)]
#[derive(Clone, Copy)]
pub struct Page {
    pub bytes: [u8; BYTES],
}
