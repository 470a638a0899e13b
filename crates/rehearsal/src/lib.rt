// A contractor's rehearsal and its checker: types, definitions (specs/) and their laws (proofs/). No code.
#![tactic(auto)]

use rules::Pool;
use table_type::Table;

// What is said of the start and of the steps that were looked at: accepted so far, or the number of the first bad step, 0 for the start.
pub type Verdict = Result<(), usize>;

// The verdict, how many steps were found good, and the table and the messages after the last of them: those of the start where there is none, and of no
// table where the start does not load.
#[derive(Clone, Copy)]
pub struct Checker {
    pub verdict: Verdict,
    pub steps: usize,
    pub table: Table,
    pub pool: Pool,
}

// A step is looked at, or it is refused: the check has ended, or 1,000 steps were looked at. Each has its number.
// Stays: two names without a value, of which no Result says more.
#[derive(Clone, Copy, Debug, PartialEq, Eq)]
pub enum Reply {
    LookedAt = 0,
    Over = 12,
}

// The reply to a step that was handed over, and the checker after it.
// Stays: `over_rehearsal::next` promises the checker after a refusal too, so that it stands beside the reply.
#[derive(Clone, Copy)]
pub struct Handed {
    pub reply: Reply,
    pub checker: Checker,
}
