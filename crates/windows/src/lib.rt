// Windows of 16-bit words (document 02, (ii)): which windows of a run meet a table, and the theorems that say so. There is no code here:
// specs/ has the definitions, proofs/ the theorems.
#![tactic(auto)]
