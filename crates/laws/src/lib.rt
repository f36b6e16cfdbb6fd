// General laws: lists, tests, tallies, the bits of numbers, and buffers that are written from their beginning on. They speak of nothing of link words. There is no
// code here: specs/ has the definitions, proofs/ the laws.
#![tactic(auto)]
