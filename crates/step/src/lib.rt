// The step, as a definition: what each action asks of a table and a pool (specs/), with cases of it (proofs/). No code.
#![tactic(auto)]
