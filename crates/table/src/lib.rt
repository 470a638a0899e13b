// Valid, settled, and what is left when a plan is carried out, as definitions (specs/) with their cases (proofs/). No code.
#![tactic(auto)]
