// A lent part of a table file as its records and as the messages that wait (specs/); laws of records over their size, and cases (proofs/). No code.
#![tactic(auto)]
