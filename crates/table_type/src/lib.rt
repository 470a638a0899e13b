// The table by value, with its limits, its start, and what stands in its slots.
#![tactic(auto)]

ghost use Rattle.std.specs.Prelude.{◌≡◌, ◌^◌, ◌<◌, ◌≤◌, ltb, length};
ghost use Rattle.rules.specs.Limits.{m_low, m_high, l_low, l_high, nodes_high, messages_high};
ghost use Rattle.rules.specs.InnerAsks.{Listed};
ghost use Rattle.rules.specs.Nodes.{no_node};
ghost use Rattle.table_type.specs.Start.{start_of};
ghost use Rattle.start.specs.Start.{start_fits, slot_ids, ids_rise, list_fits, start_node, start_nodes, id_rises};
ghost use Rattle.table_type.specs.Table.{node_at, ids_of, ring_of};

use rules::{Node, Pool, Refusal, Ring, Roster, Sides, Status, Via};

// Ids have m digits, a side of a leaf set holds at most l nodes, and n nodes are listed, in the slots 0 to n - 1.
// Stays an array with its count: fixed memory, with no heap, and a table of any numbers can be handed to the step, which says 10 of it.
#[derive(Clone, Copy, Debug, PartialEq, Eq)]
pub struct Table {
    pub m: u32,
    pub l: u32,
    pub n: usize,
    pub nodes: [Node; 64],
}

// What a step, a load or a start leaves: the answer, the table and the pool; and where the next hop came from, if a step routed a message to one.
// Stays: 01's step leaves table and pool after a refusal too (table/specs/Settle.refused_of), so that they stand beside the answer.
#[derive(Clone, Copy)]
pub struct Stepped {
    pub answer: Result<(), Refusal>,
    pub table: Table,
    pub pool: Pool,
    pub via: Via,
}

impl Table {
    pub const M_LOW: u32 = 2;

    pub const M_HIGH: u32 = 32;

    pub const L_LOW: u32 = 1;

    pub const L_HIGH: u32 = 8;

    pub const NODES: usize = 64;

    pub const MESSAGES: usize = 256;

    // Stays: six functions beside the constants. Callers read the limits through a contract, which a constant has not.
    pub fn m_low() -> u32
        ensures { result ≡ m_low }
    {
        Table::M_LOW
    }

    pub fn m_high() -> u32
        ensures { result ≡ m_high }
    {
        Table::M_HIGH
    }

    pub fn l_low() -> u32
        ensures { result ≡ l_low }
    {
        Table::L_LOW
    }

    pub fn l_high() -> u32
        ensures { result ≡ l_high }
    {
        Table::L_HIGH
    }

    pub fn nodes_high() -> usize
        ensures { result ≡ nodes_high }
    {
        Table::NODES
    }

    pub fn messages_high() -> usize
        ensures { result ≡ messages_high }
    {
        Table::MESSAGES
    }

    // The table that a start makes. 8 for M, L or the number of ids out of range; 10 for ids that do not rise below 2^M, or a set A that is empty or not listed.
    pub fn start(m: u32, l: u32, ids: &[u32], a: u64) -> Result<Table, Refusal>
        ensures { result ≡ start_of m l ids.now a }
    {
        let n = ids.len();
        if !start_fits(m, l, n) {
            return Err(Refusal::Header);
        }
        let all = slot_ids(ids);
        if !list_fits(m, n, &all, a) {
            return Err(Refusal::Invalid);
        }
        let roster = Roster {
            ring: Ring { m, l, n },
            ids: all,
        };
        let nodes = start_nodes(&roster, a);
        Ok(Table { m, l, n, nodes })
    }
}

// Stays: `i < 64` is a clause, here and wherever a slot is asked for. A slot is a plain number in 01 and in every definition; a type for it would be unwrapped
// at each index.
pub fn node_at(t: Table, i: usize) -> Node
    requires { i < 64 }
    ensures { result ≡ node_at t i }
{
    t.nodes[i]
}

// The ids by slot.
pub fn ids(t: Table) -> [u32; 64]
    ensures { result ≡ ids_of t }
{
    let mut r = [0u32; 64];
    for s in 0..64 {
        r[s] = t.nodes[s].id;
    }
    r
}

pub fn ring_of(t: Table) -> Ring
    ensures { result ≡ ring_of t }
{
    Ring {
        m: t.m,
        l: t.l,
        n: t.n,
    }
}

// The numbers and the ids, of a table whose ids are listed.
pub fn roster(t: Table) -> Roster
    requires { Listed (ring_of t) (ids_of t) }
    ensures ring { result.ring ≡ ring_of t }
    ensures ids { result.ids ≡ ids_of t }
{
    Roster {
        ring: ring_of(t),
        ids: ids(t),
    }
}

// Are M, L and the number of ids in range?
// Stays beside `table_valid::numbers_fit` and `file_read::header_fits`: their three definitions nest the same comparisons each in its own way, and one test for all
// would save a line in two places and ask for a lemma in each.
pub fn start_fits(m: u32, l: u32, n: usize) -> bool
    ensures { result ≡ start_fits m l n }
{
    (Table::M_LOW <= m)
        & ((m <= Table::M_HIGH)
            & ((Table::L_LOW <= l) & ((l <= Table::L_HIGH) & ((1 <= n) & (n <= Table::NODES)))))
}

// The ids in their slots, and 0 in the slots past them.
fn slot_ids(ids: &[u32]) -> [u32; 64]
    requires { length ids.now ≤ 64 }
    ensures { result ≡ slot_ids ids.now }
{
    let mut out = [0u32; 64];
    out[..ids.len()].copy_from_slice(ids);
    out
}

// Is x below 2^m?
// Stay clauses, here and below: m ≤ 32, and n ≤ 64. `start` tests both before it calls, and a type of the two would be made and taken apart for one shift and one index.
pub fn below_size(x: u32, m: u32) -> bool
    requires { m ≤ 32 }
    ensures { result ≡ ltb x (2 ^ m) }
{
    (x as u64) < (1u64 << m)
}

// Is the id of slot s below 2^m, and above the one before it?
fn id_rises(m: u32, ids: &[u32; 64], s: usize) -> bool
    requires { (m ≤ 32) × (s < 64) }
    ensures { result ≡ id_rises m ids.now s }
{
    let x = ids[s];
    let below = below_size(x, m);
    if s == 0 {
        return below;
    }
    below & (ids[s - 1] < x)
}

// Are the first n ids below 2^m, and strictly rising?
fn ids_rise(m: u32, n: usize, ids: &[u32; 64]) -> bool
    requires { (m ≤ 32) × (n ≤ 64) }
    ensures { result ≡ ids_rise m n ids.now }
{
    for s in 0..n {
        if !id_rises(m, ids, s) {
            return false;
        }
    }
    true
}

fn list_fits(m: u32, n: usize, ids: &[u32; 64], a: u64) -> bool
    requires { (m ≤ 32) × (n ≤ 64) }
    ensures { result ≡ list_fits m n ids.now a }
{
    if !ids_rise(m, n, ids) {
        return false;
    }
    (a != 0) & marks::all_below(a, n)
}

// The node of slot s after a start.
#[tactic(auto, unfolding(start::specs::Start::start_node))]
fn start_node(r: &Roster, a: u64, s: usize) -> Node
    requires { s < r.now.ring.n }
    ensures { result ≡ start_node r.now.ring r.now.ids a s }
{
    let id = r.ids[s];
    if marks::is_in(a, s) {
        let none = Sides { left: 0, right: 0 };
        let leaf = leaf::with_set(r, s, none, a);
        Node {
            id,
            status: Status::Ready,
            left: leaf.left,
            right: leaf.right,
            probing: 0,
            failed: 0,
            routing: a,
            lease: a,
            grant: a,
        }
    } else {
        let routing = marks::of_one(s);
        Node {
            id,
            routing,
            ..no_node()
        }
    }
}

pub fn no_node() -> Node
    ensures { result ≡ no_node }
{
    Node {
        id: 0,
        status: Status::Dead,
        left: 0,
        right: 0,
        probing: 0,
        failed: 0,
        routing: 0,
        lease: 0,
        grant: 0,
    }
}

fn start_nodes(r: &Roster, a: u64) -> [Node; 64]
    ensures { result ≡ start_nodes r.now.ring r.now.ids a }
{
    let none = no_node();
    let mut nodes = [none; 64];
    for s in 0..r.ring.n {
        nodes[s] = start_node(r, a, s);
    }
    nodes
}
