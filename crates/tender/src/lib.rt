// The tender's conditions as theorems: statements in specs/, their proofs in proofs/.
#![tactic(auto)]
