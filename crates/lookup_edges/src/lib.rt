// How far demand 3 and one holder reach, computed by the checker on small tables: the bounds are reached, and each hypothesis is needed
// (proofs/Limits); keys that nobody covers (proofs/Unheld); which actions are meant, exactly (proofs/Only). No code.
#![tactic(auto)]
