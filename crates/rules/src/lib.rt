// The rules of 01 as definitions: specs/ has them in 01's order and words. Here are the types that they speak of, all by value; there is no code.
#![tactic(auto)]

ghost use Rattle.rules.specs.InnerAsks.{Listed};

// What comes first: the nearest to a key; the least or the greatest Fall above it or below it.
#[derive(Clone, Copy, Debug, PartialEq, Eq)]
pub enum Way {
    Near,
    Up,
    Down,
    FarUp,
    FarDown,
}

// The numbers of a table: ids have m digits, a side holds at most l nodes, and n nodes are listed, in the slots 0 to n - 1.
#[derive(Clone, Copy, Debug, PartialEq, Eq)]
pub struct Ring {
    pub m: u32,
    pub l: u32,
    pub n: usize,
}

// The numbers of a table and the ids of its 64 slots: the ids are below 2^m, and those of the listed nodes rise by slot.
#[derive(Clone, Copy)]
pub struct Roster {
    pub ring: Ring,
    pub ids: [u32; 64],
    pub ghost listed: { Listed ring ids },
}

// The two sides of a leaf set: left towards rising ids, right towards falling ids.
#[derive(Clone, Copy, Debug, PartialEq, Eq)]
pub struct Sides {
    pub left: u64,
    pub right: u64,
}

// The status of a node, with its number.
#[derive(Clone, Copy, Debug, PartialEq, Eq)]
pub enum Status {
    Dead = 0,
    Wait = 1,
    Ok = 2,
    Ready = 3,
}

// A node: its id and status, and seven sets of nodes. A plan takes the slot and the node as two words, as 01's definitions do: most of its parts take one of
// the two alone, or the slot beside another leaf set, so a pair would be taken apart at each call.
#[derive(Clone, Copy, Debug, PartialEq, Eq)]
pub struct Node {
    pub id: u32,
    pub status: Status,
    pub left: u64,
    pub right: u64,
    pub probing: u64,
    pub failed: u64,
    pub routing: u64,
    pub lease: u64,
    pub grant: u64,
}

// A message. `word` is the key or the node; `hops` is the hop number of a Lookup, and 0 for every other kind.
// Stays: `kind` and `flag` are numbers, since validity is asked of any number that a file or a caller holds (Fits.is_kind), and an enum would leave out the bad ones.
#[derive(Clone, Copy, Debug, PartialEq, Eq)]
pub struct Message {
    pub kind: u32,
    pub dest: u32,
    pub word: u32,
    pub flag: u32,
    pub owner: u32,
    pub hops: u32,
    pub routing: u64,
    pub left: u64,
    pub right: u64,
    pub failed: u64,
}

// The waiting messages, oldest first: the first `count` of 256 places.
// Stays: a count beside an array, since memory is fixed and there is no heap: the pool is the caller's list of 256 places.
#[derive(Clone, Copy)]
pub struct Pool {
    pub count: usize,
    pub places: [Message; 256],
}

// A node other than the one that asks, or no legal route.
// Stays an enum: 01 names the form `let Hop::To(h) = next else` (docs/DECISIONS.md, "01's code places").
#[derive(Clone, Copy)]
pub enum Hop {
    To(usize),
    NoRoute,
}

// Where the next hop came from: the leaf set, or the routing set alone; Unrouted where nothing goes to a next hop. The number is the letter as a byte: `l` or `r`,
// and 0 for none.
// Stays: Unrouted is a variant, since T-01 gives it a number beside the letters (Numbers.via_number).
#[derive(Clone, Copy, Debug, PartialEq, Eq)]
pub enum Via {
    Unrouted = 0,
    Leaf = 108,
    Routing = 114,
}

// Why an action, a start or a file is refused, with its number. An answer is `Result<(), Refusal>`.
#[derive(Clone, Copy, Debug, PartialEq, Eq)]
pub enum Refusal {
    OutOfRange = 1,
    Status = 2,
    Waits = 3,
    LeafSet = 4,
    Partner = 5,
    Full = 6,
    Short = 7,
    Header = 8,
    Offsets = 9,
    Invalid = 10,
    NoRoom = 11,
}

// An action is one of fifteen kinds, each with its own arguments: slots, a slot and a key, or a place. They are wider than their ranges, so that 1 can be answered.
#[derive(Clone, Copy, Debug, PartialEq, Eq)]
pub enum Action {
    Lookup(usize, u64),
    Join(usize, usize),
    RequestLease(usize),
    LeaseExpired(usize, usize),
    GrantExpired(usize, usize),
    Take(usize),
    Deliver(usize),
    Forward(usize),
    NodeLeft(usize),
    SuspectFaulty(usize, usize),
    ProbeTimeOut(usize, usize),
    DeclareDead(usize, usize),
    LSRepair(usize),
    ResignNode(usize, usize),
    Recover(usize),
}

// What an action leaves of its node and adds to the pool: `first` to one slot, if any, then `each` to every slot of a set, in rising slot order.
// `via` says where the next hop came from.
#[derive(Clone, Copy)]
pub struct Plan {
    pub node: Node,
    pub first: Message,
    pub to: Option<usize>,
    pub each: Message,
    pub all: u64,
    pub via: Via,
}
