// One holder while nodes join in turn, proved of the real step: statements in specs/Claims, the clauses that every step keeps in specs/Clauses, by name in proofs/Proved; no code.
#![tactic(auto)]
