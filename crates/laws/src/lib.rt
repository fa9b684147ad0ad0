// General laws of tests and of lists, for the proofs of the other crates: what the kit's library does not have, or has in another
// form. There is no code here.
#![tactic(auto)]
