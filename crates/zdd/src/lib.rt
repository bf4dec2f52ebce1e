// The node table over keys: definitions in specs/, laws in proofs/. The code over it is the crate `table`.
#![tactic(auto)]
