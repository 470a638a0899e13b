// The theory of the ring, for every M: definitions and laws in specs/, no code.
#![tactic(auto)]
