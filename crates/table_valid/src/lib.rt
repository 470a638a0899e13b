// Validity, decided: true exactly for a valid table and pool.
#![tactic(auto)]

ghost use Rattle.std.specs.Prelude.{◌≡◌, ◌&&◌, not, ◌^◌, ◌<◌, ◌≤◌, leb, ltb, length};
ghost use Rattle.ring.specs.Distance.{nearer, rises_to};
ghost use Rattle.marks.specs.Marks.{size_of, listed};
ghost use Rattle.rules.specs.Fits.{numbers_fit, leaf_fits, node_fits, is_blank, is_kind, fields_fit, message_fits, farther_than, hops_fit};
ghost use Rattle.rules.specs.InnerAsks.{Inside};
ghost use Rattle.rules.specs.Nodes.{carried_of};
ghost use Rattle.rules.specs.Pool.{message_at};
ghost use Rattle.rules.specs.declared.Pool.{Pool};
ghost use Rattle.table.specs.Valid.{nodes_fit, pool_fits, valid_of};
ghost use Rattle.table_valid.specs.InnerAlone.{carries_none, word_alone};
ghost use Rattle.table_valid.specs.InnerNodes.{all_nodes, is_part};

use rules::{Message, Node, Pool, Ring, Roster, Sides};
use table_type::Table;

// All listed nodes, as one set, beside the numbers of their table.
#[derive(Clone, Copy)]
pub struct Whole {
    pub ring: Ring,
    pub set: u64,
    pub ghost all: { set ≡ all_nodes ring.n },
}

// What a message is tested against: the ids of the listed nodes, and their set.
#[derive(Clone, Copy)]
pub struct Census {
    pub roster: Roster,
    pub whole: Whole,
    pub ghost same: { whole.ring ≡ roster.ring },
}

fn numbers_fit(g: Ring) -> bool
    ensures { result ≡ numbers_fit g }
{
    (2 <= g.m) & (g.m <= 32) & ((1 <= g.l) & (g.l <= 8) & ((1 <= g.n) & (g.n <= 64)))
}

// The set of all listed nodes.
// Stays a clause, here, in `Whole::of` and in `nodes_fit`: n ≤ 64. It bounds one shift and one index; `Whole` carries what follows from it.
pub fn all_nodes(n: usize) -> u64
    requires { n ≤ 64 }
    ensures { result ≡ all_nodes n }
{
    if n < 64 {
        (1u64 << (n as u32)) - 1
    } else {
        u64::MAX
    }
}

impl Whole {
    pub fn of(ring: Ring) -> Whole
        requires { ring.n ≤ 64 }
        ensures { result.ring ≡ ring }
    {
        let set = all_nodes(ring.n);
        Whole { ring, set }
    }

    // Is every member of the set a listed node?
    fn has(self, set: u64) -> bool
        ensures { result ≡ listed self.ring.n set }
    {
        is_part(set, self.set)
    }
}

impl Census {
    pub fn of(roster: Roster) -> Census
        ensures { result.roster ≡ roster }
    {
        let whole = Whole::of(roster.ring);
        Census { roster, whole }
    }
}

// Is every member of the set in the whole?
fn is_part(set: u64, whole: u64) -> bool
    ensures { result ≡ is_part whole set }
{
    marks::less(set, whole) == 0
}

// Has the side at most L marks, all of them others?
fn side_fits(g: Ring, others: u64, side: u64) -> bool
    ensures { result ≡ (is_part others side && leb (size_of side) g.l) }
{
    is_part(side, others) & (marks::count(side) <= g.l)
}

fn leaf_fits(all: Whole, owner: usize, s: Sides) -> bool
    ensures { result ≡ leaf_fits all.ring owner s }
{
    let others = marks::removed(all.set, owner);
    side_fits(all.ring, others, s.left) & side_fits(all.ring, others, s.right)
}

pub fn node_fits(all: Whole, i: usize, v: Node) -> bool
    ensures { result ≡ node_fits all.ring i v }
{
    let others = marks::removed(all.set, i);
    let known = all.has(v.routing) & (all.has(v.lease) & all.has(v.grant));
    leaf_fits(all, i, parts::sides_of(v))
        & (is_part(v.probing, others) & (is_part(v.failed, others) & known))
}

fn is_blank_node(v: Node) -> bool
    ensures { result ≡ is_blank v }
{
    v == table_type::no_node()
}

// Is the id at least low and below 2^m?
// Stays a clause, here and in `key_fits`, `kind_fits` and `message_fits`: M is compared once in each, and a type of rings with M at most 32 would be
// made and taken apart for that alone.
pub fn id_fits(g: Ring, low: u64, id: u32) -> bool
    requires { g.m ≤ 32 }
    ensures { result ≡ (ltb id (2 ^ g.m) && leb low id) }
{
    table_type::below_size(id, g.m) & (low <= (id as u64))
}

// Each id is above the one before it: low is the least that the next may be.
fn nodes_fit(t: Table) -> bool
    requires { (t.m ≤ 32) × (t.n ≤ 64) }
    ensures { result ≡ nodes_fit t }
{
    let all = Whole::of(table_type::ring_of(t));
    let mut low: u64 = 0;
    for s in 0..t.n {
        let v = t.nodes[s];
        if !(id_fits(all.ring, low, v.id) & node_fits(all, s, v)) {
            return false;
        }
        low = (v.id as u64) + 1;
    }
    for s in t.n..64 {
        if !is_blank_node(t.nodes[s]) {
            return false;
        }
    }
    true
}

// No leaf set is carried.
fn carries_none(m: Message) -> bool
    ensures { result ≡ carries_none m }
{
    (m.owner == 0) & ((m.left == 0) & (m.right == 0))
}

// Nothing but the word.
fn word_alone(m: Message) -> bool
    ensures { result ≡ word_alone m }
{
    (m.flag == 0) & (carries_none(m) & ((m.routing == 0) & (m.failed == 0)))
}

// A carried leaf set, with its owner.
fn carried_fits(all: Whole, m: Message) -> bool
    ensures { result ≡ (ltb m.owner all.ring.n && leaf_fits all.ring m.owner (carried_of m)) }
{
    let owner = m.owner as usize;
    (owner < all.ring.n) & leaf_fits(all, owner, parts::carried_of(m))
}

// A key.
fn key_fits(g: Ring, m: Message) -> bool
    requires { g.m ≤ 32 }
    ensures { result ≡ fields_fit 1 g m }
{
    table_type::below_size(m.word, g.m) & word_alone(m)
}

// A node and a routing set.
fn join_request_fits(all: Whole, m: Message) -> bool
    ensures { result ≡ fields_fit 2 all.ring m }
{
    ((m.word as usize) < all.ring.n)
        & ((m.flag == 0) & (carries_none(m) & (all.has(m.routing) & (m.failed == 0))))
}

// A routing set, and a leaf set with its owner.
fn join_reply_fits(all: Whole, m: Message) -> bool
    ensures { result ≡ fields_fit 3 all.ring m }
{
    let sets = all.has(m.routing) & (m.failed == 0);
    (m.word == 0) & ((m.flag == 0) & (carried_fits(all, m) & sets))
}

// A node, a leaf set whose owner is that node, and a failed set.
fn probe_fits(all: Whole, m: Message) -> bool
    ensures { result ≡ fields_fit 4 all.ring m }
{
    let sets = (m.routing == 0) & all.has(m.failed);
    ((m.word as usize) < all.ring.n)
        & ((m.flag == 0) & (carried_fits(all, m) & ((m.owner == m.word) & sets)))
}

// A node.
fn lease_request_fits(g: Ring, m: Message) -> bool
    ensures { result ≡ fields_fit 7 g m }
{
    ((m.word as usize) < g.n) & word_alone(m)
}

// A leaf set with its owner, and a flag.
fn broadcast_fits(all: Whole, m: Message) -> bool
    ensures { result ≡ fields_fit 8 all.ring m }
{
    let sets = (m.routing == 0) & (m.failed == 0);
    (m.word == 0) & ((m.flag <= 1) & (carried_fits(all, m) & sets))
}

// Are the fields as the kind asks, and is it one of 01's eight?
// Stays a `match` on a number: the kind of a message is one in `rules::Message`, and `fields_fit` takes any.
fn kind_fits(kind: u32, all: Whole, m: Message) -> bool
    requires { all.ring.m ≤ 32 }
    ensures { result ≡ (is_kind kind && fields_fit kind all.ring m) }
{
    match kind {
        1 | 6 => key_fits(all.ring, m),
        2 => join_request_fits(all, m),
        3 => join_reply_fits(all, m),
        4 => probe_fits(all, m),
        5 => probe_fits(all, m),
        7 => lease_request_fits(all.ring, m),
        8 => broadcast_fits(all, m),
        _ => false,
    }
}

// Does the message obey its kind, its hops aside?
fn message_fits(all: Whole, m: Message) -> bool
    requires { all.ring.m ≤ 32 }
    ensures { result ≡ message_fits all.ring m }
{
    ((m.dest as usize) < all.ring.n) & kind_fits(m.kind, all, m)
}

// Is the key reached from here by falling? Then the walk away from it goes up, else down.
fn falls_to(m: u32, key: u32, here: u32) -> bool
    requires { Inside m key here }
    ensures { result ≡ not (rises_to (2 ^ m) key here) }
{
    dist::fall(m, here, key) < dist::fall(m, key, here)
}

// Is another id farther from the key than this one? By the ways from here to both: down where the key is reached by falling, else up.
fn is_farther(m: u32, up: bool, key: u32, here: u32, there: u32) -> bool
    requires { Inside m key here × Inside m here there × (there ≡ here → ⊥) × (up ≡ not (rises_to (2 ^ m) key here)) }
    ensures { result ≡ nearer (2 ^ m) key here there }
{
    if up {
        2 * dist::fall(m, here, key) < dist::fall(m, here, there)
    } else {
        2 * dist::fall(m, key, here) <= dist::fall(m, there, here)
    }
}

// Are h listed nodes, or more, farther from the key than slot d? The slot at h steps away from the key decides.
fn has_farther(r: &Roster, key: u32, d: usize, h: usize) -> bool
    requires { (key < 2 ^ r.now.ring.m) × (d < r.now.ring.n) × (1 ≤ h) × (h < r.now.ring.n) }
    ensures { result ≡ leb h (farther_than r.now.ring r.now.ids key d) }
{
    let g = r.ring;
    let here = r.ids[d];
    let up = falls_to(g.m, key, here);
    let s = leaf::along(up, d, g.n, h);
    let there = r.ids[s];
    is_farther(g.m, up, key, here, there)
}

// Are the hops of a lookup at most the number of listed nodes farther from its key than its destination?
fn hops_fit(r: &Roster, m: Message) -> bool
    requires { (m.word < 2 ^ r.now.ring.m) × (m.dest < r.now.ring.n) }
    ensures { result ≡ leb m.hops (farther_than r.now.ring r.now.ids m.word m.dest) }
{
    let h = m.hops as usize;
    if h == 0 {
        return true;
    }
    if r.ring.n <= h {
        return false;
    }
    has_farther(r, m.word, m.dest as usize, h)
}

// A lookup.
fn lookup_fits(r: &Roster, m: Message) -> bool
    ensures { let g = r.now.ring in result ≡ (ltb m.dest g.n && fields_fit 1 g m && leb m.hops (farther_than g r.now.ids m.word m.dest)) }
{
    if !(((m.dest as usize) < r.ring.n) & key_fits(r.ring, m)) {
        return false;
    }
    hops_fit(r, m)
}

// Any message: only a lookup may carry hops.
pub fn place_fits(c: &Census, m: Message) -> bool
    ensures { let r = c.now.roster in result ≡ (message_fits r.ring m && hops_fit r.ring r.ids m) }
{
    if m.kind == 1 {
        lookup_fits(&c.roster, m)
    } else {
        (m.hops == 0) & message_fits(c.whole, m)
    }
}

// Messages that wait, each read by its place: those of a pool, or of a file where it lies.
pub trait Waiting {
    ghost pool: { Self → Pool };

    fn count(&self) -> usize
        ensures { result ≡ (pool self.now).count };

    fn at(&self, q: usize) -> Message
        requires { (q < (pool self.now).count) × ((pool self.now).count ≤ 256) }
        ensures { result ≡ message_at (pool self.now) q };
}

impl Waiting for Pool {
    ghost pool = { λ p. p };

    fn count(&self) -> usize {
        self.count
    }

    fn at(&self, q: usize) -> Message {
        self.places[q]
    }
}

// Are there at most 256 messages, does each fit, and are no two equal? A message is compared only with the earlier ones of its own bucket: `heads` has one
// more than the last place of each bucket, and `next` one more than the place before of the same bucket; 0 is none.
// Stays a `while`: it goes from link to link and counts no index.
pub fn pool_fits<W: Waiting>(c: &Census, p: &W) -> bool
    requires { length (W.pool p.now).places ≡ 256 }
    ensures { let r = c.now.roster in result ≡ pool_fits r.ring r.ids (W.pool p.now) }
{
    let n = p.count();
    if 256 < n {
        return false;
    }
    for k in 0..n {
        if !place_fits(c, p.at(k)) {
            return false;
        }
    }
    let mut heads = [0u32; 509];
    let mut next = [0u32; 256];
    for j in 0..n {
        let m = p.at(j);
        let h = pool::bucket(m);
        let first = heads[h];
        let mut at = first as usize;
        'chain: while 0 < at {
            if pool::alike(p.at(at - 1), m) {
                return false;
            }
            at = next[at - 1] as usize;
        }
        next[j] = first;
        heads[h] = (j + 1) as u32;
    }
    true
}

// Is the table valid, with the messages of the pool?
pub fn is_valid(t: Table, p: Pool) -> bool
    ensures { result ≡ valid_of t p }
{
    let g = table_type::ring_of(t);
    if !numbers_fit(g) {
        return false;
    }
    if !nodes_fit(t) {
        return false;
    }
    let c = Census::of(table_type::roster(t));
    pool_fits(&c, &p)
}
