// Water records on top of the ring: types, definitions (specs/) and their laws (proofs/). No code.
#![tactic(auto)]

// A record: a key, a month from 1 to 12, and rain, evapotranspiration and runoff in tenths of a millimetre. The fields are wider
// than their ranges, so that 14 can be answered.
#[derive(Clone, Copy, Debug, PartialEq, Eq)]
pub struct Record {
    pub key: u64,
    pub month: u32,
    pub rain: u32,
    pub evapotranspiration: u32,
    pub runoff: u32,
}

// A record that is held: its original at slot `holder`, copies at the slots of a set.
#[derive(Clone, Copy, Debug, PartialEq, Eq)]
pub struct Held {
    pub original: Record,
    pub holder: usize,
    pub copies: u64,
}

// The records that are held: the first `count` of 512 places, in the order in which their key and month were first accepted. A count
// beyond 512 stands for all places.
#[derive(Clone, Copy, Debug, PartialEq, Eq)]
pub struct Store {
    pub count: usize,
    pub places: [Held; 512],
}

// Why a record is not taken, with its number.
#[derive(Clone, Copy, Debug, PartialEq, Eq)]
pub enum Why {
    Invalid = 10,
    OutOfRange = 14,
    Unsettled = 15,
    NoRoom = 16,
}

// A record is accepted, or why it is not taken.
pub type Reply = Result<(), Why>;

// The reply to a record, and the store after it: a refusal leaves the store, so that it stands beside the reply and not in it.
// Stays: `over_water::place` promises the store after a refusal too (water/specs/Water.refused_of).
#[derive(Clone, Copy, Debug, PartialEq, Eq)]
pub struct Placed {
    pub reply: Reply,
    pub store: Store,
}
