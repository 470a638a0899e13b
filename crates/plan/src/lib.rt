// What an action other than Take, Deliver and Forward asks of one node, as definitions: specs/ has the actions in 01's order and words. No code.
#![tactic(auto)]
