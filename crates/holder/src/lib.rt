// Who holds a key: the answer's type, its definitions (specs/) and their laws (proofs/). No code.
#![tactic(auto)]

use rules::Refusal;

// The slot of the node that holds a key, and the slots of the copies.
#[derive(Clone, Copy, Debug, PartialEq, Eq)]
pub struct Holder {
    pub slot: usize,
    pub copies: u64,
}

// Why no node holds a key: the table is not valid or the list has not 256 places, the key is not below 2^M, or the table is not settled.
#[derive(Clone, Copy, Debug, PartialEq, Eq)]
pub enum Unheld {
    NotAsked(Refusal),
    OutOfRange,
    Unsettled,
}

// The holder of a key, or why there is none.
pub type Holding = Result<Holder, Unheld>;
