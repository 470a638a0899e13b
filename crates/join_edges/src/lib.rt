// How far one holder while nodes join in turn reaches: two that join at once, computed by the checker in proofs/Cases; what does not hold where nodes leave, in
// proofs/Leaving; joins that come to ready, in proofs/Joins; and what is barred, exactly, in proofs/Only; no code.
#![tactic(auto)]
