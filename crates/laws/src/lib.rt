// The laws of the definitions in crates/meaning: a module for each matter, in proofs/.
#![tactic(auto)]
