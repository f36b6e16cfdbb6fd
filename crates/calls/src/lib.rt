// The calls together: what is said of every one of them. There is no code here: specs/ has the definitions, proofs/ the theorems.
#![tactic(auto)]
