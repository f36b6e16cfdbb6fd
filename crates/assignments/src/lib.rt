// The pattern maker: what it takes and gives, and the theorems that say so. There is no code here: specs/ has the definitions, proofs/ the
// theorems.
#![tactic(auto)]
