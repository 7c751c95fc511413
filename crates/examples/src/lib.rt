// Document 01's examples, computed by the definitions. There is no code here: see proofs/.
#![tactic(auto)]
