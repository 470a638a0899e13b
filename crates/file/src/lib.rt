// The table file as definitions: specs/ has the bytes, the records, reading and writing. Here is the writer's answer; there is no code.
#![tactic(auto)]

use rules::Refusal;

// What a write leaves beside the buffer: how many bytes were written, or the refusal.
pub type Wrote = Result<usize, Refusal>;
