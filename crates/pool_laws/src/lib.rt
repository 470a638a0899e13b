// Laws of the waiting messages (proofs/), the words they use, and the type of what is new of a plan. No code.
#![tactic(auto)]

// Which of a plan's messages are new: the slot of the first one if it is, and the slots to which the other is.
#[derive(Clone, Copy)]
pub struct New {
    pub one: Option<usize>,
    pub all: u64,
}
