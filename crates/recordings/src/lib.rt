// Two recordings of the same frames (document 02, (xi)): which records are a pair, which stand alone, which pairs break a sheet, and the
// theorems that say so. There is no code here: specs/ has the definitions, proofs/ the theorems.
#![tactic(auto)]
