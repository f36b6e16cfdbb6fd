// Tables that say the same, and what calls yield of them: tables whose equations stand in another order or with other sides left
// (document 02, (xiv)), and what the order of tables by their patterns (crate inclusion) means for calls ((xii)). There is no code
// here: specs/ has the definitions, proofs/ the theorems.
#![tactic(auto)]
