// Laws of table and step: what validity tells, what every step keeps, with which numbers it is refused, and what a start leaves: statements in specs/Claims,
// proofs by name in proofs/Proved. No code.
#![tactic(auto)]
