// Demand 3, proved of the real step: statements in specs/Claims, the words they use in specs/Journey and specs/Fates; the pair of T-05 in specs/Pair,
// the hops of T-07 in specs/Carried, T-08 in specs/Joining; by name in proofs/Proved; no code.
#![tactic(auto)]
