// The taking of a JoinReply (kind 3), an LSProbe (kind 4) and an LSProbeReply (kind 5).
#![tactic(auto)]

ghost use Rattle.std.specs.Prelude.{◌≡◌, ◌<◌};
ghost use Rattle.rules.specs.Letters.{ls_probe, ls_probe_reply};
ghost use Rattle.rules.specs.Leaf.{content_of, leaf_with_one};
ghost use Rattle.rules.specs.Nodes.{carried_of, sides_of};
ghost use Rattle.take.specs.Take.{join_reply_plan, plan_take_join_reply, probes2, probes_of, failed_without, learnt_node, waits_empty, probe_plan_of, plan_take_probe};
ghost use Rattle.take.specs.Take.{still_probing, status_after_reply, reply_plan_of, plan_take_probe_reply};

use rules::{Message, Node, Plan, Refusal, Ring, Roster, Sides, Status};

pub fn ls_probe(i: u32, s: Sides, failed: u64) -> Message
    ensures { result ≡ ls_probe i s failed }
{
    parts::write_letter(4, i, 0, i, 0, s, failed)
}

pub fn ls_probe_reply(i: u32, s: Sides, failed: u64) -> Message
    ensures { result ≡ ls_probe_reply i s failed }
{
    parts::write_letter(5, i, 0, i, 0, s, failed)
}

// The content of the leaf set that a message carries.
pub fn told(m: Message) -> u64
    ensures { result ≡ content_of (carried_of m) m.owner }
{
    leaf::content(parts::carried_of(m), m.owner as usize)
}

// The node that has joined with the leaf set s, and its probes.
pub fn join_reply_plan(i: u32, v: Node, routing: u64, content: u64, s: Sides) -> Plan
    ensures { result ≡ join_reply_plan i v routing content s }
{
    let probing = marks::removed(leaf::content(s, i as usize), i as usize);
    let known = marks::joined(v.routing, marks::joined(routing, content));
    let node = Node {
        left: s.left,
        right: s.right,
        probing,
        failed: 0,
        routing: known,
        ..v
    };
    Plan {
        each: ls_probe(i, s, 0),
        all: probing,
        ..parts::quiet_plan(node)
    }
}

// The taking of a JoinReply at node i.
#[tactic(auto, using(rules::proofs::Statuses::statuses), unfolding(take::specs::Take::plan_take_join_reply))]
pub fn plan_take_join_reply(r: &Roster, i: usize, v: Node, m: Message) -> Result<Plan, Refusal>
    requires { i < r.now.ring.n }
    ensures { result ≡ plan_take_join_reply r.now.ring r.now.ids i v m }
{
    if v.status == Status::Dead {
        return Err(Refusal::Status);
    }
    let own = parts::sides_of(v);
    if !leaf::empty(own) {
        return Err(Refusal::LeafSet);
    }
    if v.probing != 0 {
        return Err(Refusal::Partner);
    }
    let content = told(m);
    let s = leaf::with_set(r, i, own, content);
    Ok(join_reply_plan(i as u32, v, m.routing, content, s))
}

// P2: what the message's content, without f, would bring into the leaf set s.
#[tactic(auto, unfolding(take::specs::Take::probes2))]
fn news(r: &Roster, i: usize, s: Sides, f: u64, m: Message) -> u64
    requires { i < r.now.ring.n }
    ensures { result ≡ probes2 r.now.ring r.now.ids i s f m }
{
    let next = leaf::with_set(r, i, s, marks::less(told(m), f));
    marks::less(leaf::content(next, i), leaf::content(s, i))
}

// P: whom node i, with the leaf set s and the failed set f, is to probe.
#[tactic(auto, unfolding(take::specs::Take::probes_of))]
fn probes(r: &Roster, i: usize, v: Node, s: Sides, f: u64, m: Message) -> u64
    requires { i < r.now.ring.n }
    ensures { result ≡ probes_of r.now.ring r.now.ids i v s f m }
{
    let p1 = marks::both(leaf::content(s, i), m.failed);
    let p2 = news(r, i, s, f, m);
    let off = marks::joined(v.probing, f);
    marks::removed(marks::less(marks::joined(p1, p2), off), i)
}

// The node that has learnt of j.
pub fn learnt(v: Node, j: usize, s: Sides, f: u64, probing: u64, st: Status) -> Node
    ensures { result ≡ learnt_node v j s f probing st }
{
    let routing = marks::added(v.routing, j);
    Node {
        status: st,
        left: s.left,
        right: s.right,
        probing,
        failed: f,
        routing,
        ..v
    }
}

// Does the node wait with an empty leaf set?
#[tactic(auto, using(rules::proofs::Statuses::statuses))]
pub fn waits_empty(v: Node) -> bool
    ensures { result ≡ waits_empty v }
{
    (v.status == Status::Wait) & leaf::empty(parts::sides_of(v))
}

// What a probe of j, or its reply, tells node i: the failed set without j, the leaf set with j, and whom to probe.
fn heard(r: &Roster, i: usize, v: Node, m: Message) -> (u64, Sides, u64)
    requires { i < r.now.ring.n }
    ensures failed { result.0 ≡ failed_without v m.word }
    ensures sides { result.1 ≡ leaf_with_one r.now.ring r.now.ids i (sides_of v) m.word }
    ensures probes { result.2 ≡ probes_of r.now.ring r.now.ids i v result.1 result.0 m }
{
    let j = m.word as usize;
    let f = marks::removed(v.failed, j);
    let s = leaf::with_one(r, i, parts::sides_of(v), j);
    (f, s, probes(r, i, v, s, f, m))
}

#[tactic(auto, unfolding(take::specs::Take::probe_plan_of))]
fn probe_plan(r: &Roster, i: usize, v: Node, m: Message) -> Plan
    requires { i < r.now.ring.n }
    ensures { result ≡ probe_plan_of r.now.ring r.now.ids i v m }
{
    let own = i as u32;
    let j = m.word as usize;
    let (f, s, p) = heard(r, i, v, m);
    let st = v.status;
    let node = learnt(v, j, s, f, marks::joined(v.probing, p), st);
    Plan {
        each: ls_probe(own, s, f),
        all: p,
        ..parts::send_plan(node, ls_probe_reply(own, s, f), j)
    }
}

// The taking of an LSProbe at node i.
#[tactic(auto, using(rules::proofs::Statuses::statuses), unfolding(take::specs::Take::plan_take_probe))]
pub fn plan_take_probe(r: &Roster, i: usize, v: Node, m: Message) -> Result<Plan, Refusal>
    requires { i < r.now.ring.n }
    ensures { result ≡ plan_take_probe r.now.ring r.now.ids i v m }
{
    if v.status == Status::Dead {
        return Err(Refusal::Status);
    }
    if waits_empty(v) {
        return Err(Refusal::LeafSet);
    }
    if m.word == i as u32 {
        return Err(Refusal::Partner);
    }
    Ok(probe_plan(r, i, v, m))
}

// What is left to probe.
pub fn still(v: Node, p: u64, j: usize) -> u64
    ensures { result ≡ still_probing v p j }
{
    marks::removed(marks::less(marks::joined(v.probing, p), v.failed), j)
}

// A waiting node with nothing left to probe, whose sides overlap or are complete, becomes ok.
#[tactic(auto, using(rules::proofs::Statuses::statuses), unfolding(take::specs::Take::status_after_reply))]
pub fn status_after(g: Ring, st: Status, s: Sides, probing: u64) -> Status
    ensures { result ≡ status_after_reply g st s probing }
{
    if (st == Status::Wait) & ((probing == 0) & (leaf::overlap(s) | leaf::complete(g, s))) {
        Status::Ok
    } else {
        st
    }
}

#[tactic(auto, unfolding(take::specs::Take::reply_plan_of))]
fn reply_plan(r: &Roster, i: usize, v: Node, m: Message) -> Plan
    requires { i < r.now.ring.n }
    ensures { result ≡ reply_plan_of r.now.ring r.now.ids i v m }
{
    let own = i as u32;
    let j = m.word as usize;
    let (f, s, p) = heard(r, i, v, m);
    let probing = still(v, p, j);
    let st = status_after(r.ring, v.status, s, probing);
    let node = learnt(v, j, s, f, probing, st);
    Plan {
        each: ls_probe(own, s, f),
        all: p,
        ..parts::quiet_plan(node)
    }
}

// The taking of an LSProbeReply at node i.
#[tactic(auto, using(rules::proofs::Statuses::statuses), unfolding(take::specs::Take::plan_take_probe_reply))]
pub fn plan_take_probe_reply(r: &Roster, i: usize, v: Node, m: Message) -> Result<Plan, Refusal>
    requires { i < r.now.ring.n }
    ensures { result ≡ plan_take_probe_reply r.now.ring r.now.ids i v m }
{
    if v.status == Status::Dead {
        return Err(Refusal::Status);
    }
    if waits_empty(v) {
        return Err(Refusal::LeafSet);
    }
    if (m.word == i as u32) | !marks::is_in(v.probing, m.word as usize) {
        return Err(Refusal::Partner);
    }
    Ok(reply_plan(r, i, v, m))
}
