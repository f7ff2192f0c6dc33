// The mathematics of walking back: definitions in specs/, proofs in proofs/. The code that runs stands in the crates above.

#![tactic(auto)]
