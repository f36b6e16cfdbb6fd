// Tables worked in whole pieces, all numbers: the first cut, the steps, the runs, the links behind the sweep, and the answer.
// There is no code here: specs/ has the statements, proofs/ the theorems.
#![tactic(auto)]
