// Parts of nodes and messages, whether a status is ok or ready, and 01's numbers, which stand in the types.
// Stays: the numbers, `sides_of` and `carried_of` are functions. An impl of From must be in the crate of one of its types, and that is `rules`, which has no code.
#![tactic(auto)]

ghost use Rattle.std.specs.Prelude.{◌≡◌, ℕ};
ghost use Rattle.rules.specs.Numbers.{status_number, answer_number, via_number};
ghost use Rattle.rules.specs.Nodes.{sides_of, carried_of, placed};
ghost use Rattle.rules.specs.Plans.{is_up, with_status, with_leases, with_probing, with_sides, quiet_plan, send_by, send_plan};
ghost use Rattle.rules.specs.Pool.{blank};
ghost use Rattle.rules.specs.Letters.{letter, no_sides};

use rules::{Message, Node, Plan, Refusal, Sides, Status, Via};

// 01's number of a status.
// Stays: the three numbers are functions with names, which docs/RULES.md gives; `Result` and `u32` are both of other crates, so no From stands for an answer's.
pub fn status_number(s: Status) -> u32
    ensures { result ≡ status_number s }
{
    s as u32
}

// 01's number of an answer.
pub fn answer_number(a: Result<(), Refusal>) -> u32
    ensures { result ≡ answer_number a }
{
    match a {
        Ok(()) => 0,
        Err(why) => why as u32,
    }
}

// The letter of where a hop came from, as a byte: `l` or `r`, and 0 for none.
pub fn via_number(via: Via) -> u32
    ensures { result ≡ via_number via }
{
    via as u32
}

pub fn sides_of(v: Node) -> Sides
    ensures { result ≡ sides_of v }
{
    Sides {
        left: v.left,
        right: v.right,
    }
}

// The sides of the leaf set that a message carries.
pub fn carried_of(m: Message) -> Sides
    ensures { result ≡ carried_of m }
{
    Sides {
        left: m.left,
        right: m.right,
    }
}

// The same message for another destination.
pub fn to_slot(m: Message, s: u32) -> Message
    ensures { result ≡ placed m s }
{
    Message { dest: s, ..m }
}

pub fn blank_message() -> Message
    ensures { result ≡ blank }
{
    Message {
        kind: 0,
        dest: 0,
        word: 0,
        flag: 0,
        owner: 0,
        hops: 0,
        routing: 0,
        left: 0,
        right: 0,
        failed: 0,
    }
}

// Ok or ready.
pub fn is_up(s: Status) -> bool
    ensures { result ≡ is_up s }
{
    matches!(s, Status::Ok | Status::Ready)
}

pub fn with_status(v: Node, s: Status) -> Node
    ensures { result ≡ with_status v s }
{
    Node { status: s, ..v }
}

pub fn with_leases(v: Node, lease: u64, grant: u64, s: Status) -> Node
    ensures { result ≡ with_leases v lease grant s }
{
    Node {
        status: s,
        lease,
        grant,
        ..v
    }
}

pub fn with_probing(v: Node, probing: u64) -> Node
    ensures { result ≡ with_probing v probing }
{
    Node { probing, ..v }
}

pub fn with_sides(v: Node, s: Sides, st: Status) -> Node
    ensures { result ≡ with_sides v s st }
{
    Node {
        status: st,
        left: s.left,
        right: s.right,
        ..v
    }
}

// A message for no destination yet.
pub fn write_letter(
    kind: u32,
    word: u32,
    flag: u32,
    owner: u32,
    routing: u64,
    s: Sides,
    failed: u64,
) -> Message
    ensures { result ≡ letter kind word flag owner routing s failed }
{
    Message {
        kind,
        dest: 0,
        word,
        flag,
        owner,
        hops: 0,
        routing,
        left: s.left,
        right: s.right,
        failed,
    }
}

pub fn no_sides() -> Sides
    ensures { result ≡ no_sides }
{
    Sides { left: 0, right: 0 }
}

// The node, and nothing added.
pub fn quiet_plan(v: Node) -> Plan
    ensures { result ≡ quiet_plan v }
{
    let none = blank_message();
    Plan {
        node: v,
        first: none,
        to: None,
        each: none,
        all: 0,
        via: Via::Unrouted,
    }
}

// The node, and one message to one slot, said to go there by `via`.
pub fn send_by(via: Via, v: Node, m: Message, s: usize) -> Plan
    ensures { result ≡ send_by via v m s }
{
    let none = blank_message();
    Plan {
        node: v,
        first: m,
        to: Some(s),
        each: none,
        all: 0,
        via,
    }
}

// The same, where nothing is routed.
pub fn send_plan(v: Node, m: Message, s: usize) -> Plan
    ensures { result ≡ send_plan v m s }
{
    send_by(Via::Unrouted, v, m, s)
}
