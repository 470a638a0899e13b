// Departures and repairs (T-03): the actions NodeLeft, SuspectFaulty, ProbeTimeOut, DeclareDead, LSRepair, ResignNode and Recover.
#![tactic(auto)]

ghost use Rattle.std.specs.Prelude.{◌≡◌, ◌<◌};
ghost use Rattle.marks.specs.Marks.{has};
ghost use Rattle.rules.specs.Leaf.{content_of};
ghost use Rattle.rules.specs.Nodes.{sides_of};
ghost use Rattle.plan.specs.Leave.{plan_node_left, probing_plan, plan_suspect_faulty, timed_out, without_member, after_time_out, plan_probe_time_out};
ghost use Rattle.plan.specs.Leave.{plan_declare_dead, lacks_side, lacks_both, ends_to_probe, plan_ls_repair, plan_resign_node, last_end, plan_recover};
ghost use Rattle.plan.specs.Leave.{emptied as emptied_of};

use rules::{Node, Plan, Refusal, Roster, Sides, Status, Way};

// The node with all sets empty, but for the routing set.
pub fn emptied(v: Node, st: Status, routing: u64) -> Node
    ensures { result ≡ emptied_of v st routing }
{
    Node {
        id: v.id,
        status: st,
        left: 0,
        right: 0,
        probing: 0,
        failed: 0,
        routing,
        lease: 0,
        grant: 0,
    }
}

// NodeLeft(i).
#[tactic(auto, using(rules::proofs::Statuses::statuses), unfolding(plan::specs::Leave::plan_node_left))]
pub fn plan_node_left(v: Node) -> Result<Plan, Refusal>
    ensures { result ≡ plan_node_left v }
{
    if v.status == Status::Dead {
        return Err(Refusal::Status);
    }
    Ok(parts::quiet_plan(emptied(v, Status::Dead, 0)))
}

// The nodes of a set are probed by node i.
pub fn probing_plan(i: u32, v: Node, set: u64) -> Plan
    ensures { result ≡ probing_plan i v set }
{
    let node = parts::with_probing(v, marks::joined(v.probing, set));
    Plan {
        each: plan_probe::ls_probe(i, parts::sides_of(v), v.failed),
        all: set,
        ..parts::quiet_plan(node)
    }
}

// Is j in the content of node i?
pub fn is_member(i: usize, v: Node, j: usize) -> bool
    ensures { result ≡ has (content_of (sides_of v) i) j }
{
    marks::is_in(leaf::content(parts::sides_of(v), i), j)
}

// SuspectFaulty(i, j).
#[tactic(auto, unfolding(plan::specs::Leave::plan_suspect_faulty))]
pub fn plan_suspect_faulty(i: usize, v: Node, j: usize) -> Result<Plan, Refusal>
    requires { i < 64 }
    ensures { result ≡ plan_suspect_faulty i v j }
{
    if !parts::is_up(v.status) {
        return Err(Refusal::Status);
    }
    let known = marks::is_in(v.probing, j) | marks::is_in(v.failed, j);
    if (i == j) | (!is_member(i, v, j) | known) {
        return Err(Refusal::Partner);
    }
    Ok(probing_plan(i as u32, v, marks::of_one(j)))
}

// The node whose probe of j has timed out: j leaves probing and lease and enters failed.
pub fn timed_out(v: Node, j: usize) -> Node
    ensures { result ≡ timed_out v j }
{
    let probing = marks::removed(v.probing, j);
    let failed = marks::added(v.failed, j);
    let lease = marks::removed(v.lease, j);
    Node {
        probing,
        failed,
        lease,
        ..v
    }
}

// The node without j in its leaf set, waiting.
pub fn without_member(v: Node, j: usize) -> Node
    ensures { result ≡ without_member v j }
{
    let left = marks::removed(v.left, j);
    let right = marks::removed(v.right, j);
    parts::with_sides(v, Sides { left, right }, Status::Wait)
}

// The node after its probe of j has timed out: a member that is not granted leaves.
pub fn after_time_out(i: usize, v: Node, j: usize) -> Node
    ensures { result ≡ after_time_out i v j }
{
    let node = timed_out(v, j);
    if !marks::is_in(v.grant, j) & is_member(i, v, j) {
        without_member(node, j)
    } else {
        node
    }
}

// ProbeTimeOut(i, j). The waiting probes go by `pool::without_probes`.
#[tactic(auto, using(rules::proofs::Statuses::statuses), unfolding(plan::specs::Leave::plan_probe_time_out))]
pub fn plan_probe_time_out(i: usize, v: Node, j: usize) -> Result<Plan, Refusal>
    ensures { result ≡ plan_probe_time_out i v j }
{
    if v.status == Status::Dead {
        return Err(Refusal::Status);
    }
    if (i == j) | !marks::is_in(v.probing, j) {
        return Err(Refusal::Partner);
    }
    Ok(parts::quiet_plan(after_time_out(i, v, j)))
}

// DeclareDead(i, j).
#[tactic(auto, unfolding(plan::specs::Leave::plan_declare_dead))]
pub fn plan_declare_dead(r: &Roster, i: usize, v: Node, j: usize) -> Result<Plan, Refusal>
    requires { i < 64 }
    ensures { result ≡ plan_declare_dead r.now.ring r.now.ids i v j }
{
    if !parts::is_up(v.status) {
        return Err(Refusal::Status);
    }
    let there = marks::is_in(v.failed, j) & is_member(i, v, j);
    let held = plan_lease::neighbours(r, i, v, j) & marks::is_in(v.grant, j);
    if !there | held {
        return Err(Refusal::Partner);
    }
    Ok(parts::quiet_plan(without_member(v, j)))
}

// Is a side of the node empty?
pub fn lacks_side(v: Node) -> bool
    ensures { result ≡ lacks_side (sides_of v) }
{
    (marks::count(v.left) == 0) | (marks::count(v.right) == 0)
}

// Are both sides of the node empty?
pub fn lacks_both(v: Node) -> bool
    ensures { result ≡ lacks_both (sides_of v) }
{
    (marks::count(v.left) == 0) & (marks::count(v.right) == 0)
}

// The ends of the short sides.
#[tactic(auto, unfolding(plan::specs::Leave::ends_to_probe))]
fn ends_to_probe(r: &Roster, i: usize, s: Sides) -> u64
    requires { i < 64 }
    ensures { result ≡ ends_to_probe r.now.ring r.now.ids i s }
{
    let lm = marks::of_one(leaf::seen(Way::FarUp, r, i, s.left));
    let rm = marks::of_one(leaf::seen(Way::FarDown, r, i, s.right));
    let most = r.ring.l;
    let left = marks::count(s.left);
    let right = marks::count(s.right);
    if (left < most) & (right < most) {
        return marks::joined(lm, rm);
    }
    if (left < most) & (right == most) {
        lm
    } else {
        rm
    }
}

// LSRepair(i).
#[tactic(auto, using(rules::proofs::Statuses::statuses), unfolding(plan::specs::Leave::plan_ls_repair))]
pub fn plan_ls_repair(r: &Roster, i: usize, v: Node) -> Result<Plan, Refusal>
    requires { i < 64 }
    ensures { result ≡ plan_ls_repair r.now.ring r.now.ids i v }
{
    if v.status != Status::Wait {
        return Err(Refusal::Status);
    }
    let s = parts::sides_of(v);
    if lacks_side(v) | leaf::complete(r.ring, s) {
        return Err(Refusal::LeafSet);
    }
    if v.probing != 0 {
        return Err(Refusal::Partner);
    }
    let ends = ends_to_probe(r, i, s);
    Ok(probing_plan(i as u32, v, ends))
}

// ResignNode(i, n): `waits` says whether a JoinReply to i waits, and u is the node of n.
#[tactic(auto, using(rules::proofs::Statuses::statuses), unfolding(plan::specs::Leave::plan_resign_node))]
pub fn plan_resign_node(waits: bool, i: usize, v: Node, n: usize, u: Node) -> Result<Plan, Refusal>
    requires { i < 64 }
    ensures { result ≡ plan_resign_node waits i v n u }
{
    let st = v.status;
    if !((st == Status::Wait) & (u.status == Status::Ready)) {
        return Err(Refusal::Status);
    }
    if waits {
        return Err(Refusal::Waits);
    }
    if !lacks_side(v) {
        return Err(Refusal::LeafSet);
    }
    if v.probing != 0 {
        return Err(Refusal::Partner);
    }
    let node = emptied(v, st, marks::of_one(i));
    let request = plan_route::join_request(i as u32, 0);
    Ok(parts::send_plan(node, request, n))
}

// The far end of the side that is not empty.
#[tactic(auto, unfolding(plan::specs::Leave::last_end))]
fn last_end(r: &Roster, i: usize, s: Sides) -> usize
    requires { i < 64 }
    ensures { result ≡ last_end r.now.ring r.now.ids i s }
{
    if marks::count(s.left) == 0 {
        leaf::seen(Way::FarDown, r, i, s.right)
    } else {
        leaf::seen(Way::FarUp, r, i, s.left)
    }
}

// Recover(i): `up` says whether some node is ok or ready.
#[tactic(auto, using(rules::proofs::Statuses::statuses), unfolding(plan::specs::Leave::plan_recover))]
pub fn plan_recover(up: bool, r: &Roster, i: usize, v: Node) -> Result<Plan, Refusal>
    requires { i < 64 }
    ensures { result ≡ plan_recover up r.now.ring r.now.ids i v }
{
    if (v.status != Status::Wait) | up {
        return Err(Refusal::Status);
    }
    if !lacks_side(v) | lacks_both(v) {
        return Err(Refusal::LeafSet);
    }
    if v.probing != 0 {
        return Err(Refusal::Partner);
    }
    let end = last_end(r, i, parts::sides_of(v));
    Ok(probing_plan(i as u32, v, marks::of_one(end)))
}
