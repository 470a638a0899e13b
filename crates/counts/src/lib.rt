// How many messages wait for each node, kept beside the pool: types, definitions (specs/) and their laws (proofs/). No code.
#![tactic(auto)]

use rules::{Pool, Refusal, Via};
use table_type::Table;

// A table, its pool, and for each slot how many messages wait for its node.
#[derive(Clone, Copy)]
pub struct Counted {
    pub table: Table,
    pub pool: Pool,
    pub counts: [u32; 64],
}

// What a step, a load or a start leaves, and where the next hop came from, as without counts.
// Stays: `over_counts::step`, `load` and `start` promise the table after a refusal too, so that it stands beside the answer.
#[derive(Clone, Copy)]
pub struct After {
    pub answer: Result<(), Refusal>,
    pub counted: Counted,
    pub via: Via,
}

// Whether a node has a message, or why that was not looked at.
pub type Has = Result<bool, Refusal>;

// The place of a node's first message, if it has one, or why that was not looked at.
pub type First = Result<Option<usize>, Refusal>;

// The nodes that have a message, or why that was not looked at.
pub type Polled = Result<u64, Refusal>;
