// Laws of rules: the best slot, the nearest of a side, leaf sets, walks outwards, next hops and the bound on hops, for every ring (proofs/). No definitions, and no code.
#![tactic(auto)]
