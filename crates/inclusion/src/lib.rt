// Old layout against new (document 02, (xii)): two tables compared by the patterns that meet them, and the theorems that say how. There is
// no code here: specs/ has the definitions, proofs/ the theorems.
#![tactic(auto)]
