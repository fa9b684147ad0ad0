// The bench sheet of document 01 with W3's case: specs/ has the fifteen cases, cases for what came later, and the table of
// the 1,600 move lengths, proofs/ that they hold. There is no code here.
#![tactic(auto)]
