// The order of the pool is of no account, proved of the real step: statements in specs/Claims, the words they use in specs/Order, by name in proofs/Proved; no code.
#![tactic(auto)]
