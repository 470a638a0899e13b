// The listing of a table file as definitions: specs/ has the trip of a waiting lookup, the lines that are printed, and the reply; proofs/ has cases. No code.
#![tactic(auto)]
