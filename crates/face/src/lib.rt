// What callers outside are told, as definitions: a start, whether a table is settled, and table files in and out
// (specs/), with their types; what a done call leaves (proofs/). No code.
#![tactic(auto)]

use rules::{Refusal, Via};

// Whether a table is settled, or why that was not looked at.
pub type Rest = Result<bool, Refusal>;

// How many bytes a step wrote, and where the next hop came from, if it routed a message to one.
#[derive(Clone, Copy)]
pub struct Moved {
    pub count: usize,
    pub via: Via,
}
