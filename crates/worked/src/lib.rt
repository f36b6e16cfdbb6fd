// Document 01's worked cases, and the way from a sheet to its answer: what they say, and that they hold; and wrong solvers, which are shut out.
// There is no code here: specs/ has the statements, proofs/ the theorems.
#![tactic(auto)]
