// What the taking of a message asks of its destination, as definitions: specs/ has Take, Deliver and Forward by kind, in 01's order and words. No code.
#![tactic(auto)]
