// The start by slots, as definitions: the node that a start leaves in each slot, and what it asks of M, L, the ids and A (specs/), with cases (proofs/). No code.
#![tactic(auto)]
