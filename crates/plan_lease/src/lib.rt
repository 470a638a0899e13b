// Leases: the actions RequestLease, LeaseExpired and GrantExpired, and the taking of a LeaseRequest (kind 7) and a BroadcastLSet (kind 8).
#![tactic(auto)]

ghost use Rattle.std.specs.Prelude.{◌≡◌, ◌<◌};
ghost use Rattle.rules.specs.Letters.{lease_request, broadcast_l_set};
ghost use Rattle.plan.specs.Actions.{is_beside, unless_in, lease_plan, plan_request_lease, is_neighbour, plan_lease_expired, plan_grant_expired};
ghost use Rattle.take.specs.Take.{grant_plan, plan_take_lease_request, lease_after, status_after_lease, leased_node, broadcast_plan, plan_take_broadcast};

use rules::{Message, Node, Plan, Refusal, Roster, Sides, Status};

pub fn lease_request(i: u32) -> Message
    ensures { result ≡ lease_request i }
{
    parts::write_letter(7, i, 0, 0, 0, parts::no_sides(), 0)
}

pub fn broadcast(owner: u32, s: Sides, flag: u32) -> Message
    ensures { result ≡ broadcast_l_set owner s flag }
{
    parts::write_letter(8, 0, flag, owner, 0, s, 0)
}

// The slot s, unless it is in the set.
pub fn unless_in(set: u64, s: usize) -> Option<usize>
    ensures { result ≡ unless_in set s }
{
    if marks::is_in(set, s) { None } else { Some(s) }
}

#[tactic(auto, unfolding(plan::specs::Actions::lease_plan))]
fn lease_plan(r: &Roster, i: usize, v: Node) -> Plan
    requires { i < 64 }
    ensures { result ≡ lease_plan r.now.ring r.now.ids i v }
{
    let (above, below) = leaf::neighbours(r, i, parts::sides_of(v));
    let to = unless_in(v.lease, above);
    let all = marks::less(marks::of_one(below), v.lease);
    let first = lease_request(i as u32);
    Plan {
        first,
        to,
        each: first,
        all,
        ..parts::quiet_plan(v)
    }
}

// RequestLease(i).
#[tactic(auto, using(rules::proofs::Statuses::statuses), unfolding(plan::specs::Actions::plan_request_lease))]
pub fn plan_request_lease(r: &Roster, i: usize, v: Node) -> Result<Plan, Refusal>
    requires { i < 64 }
    ensures { result ≡ plan_request_lease r.now.ring r.now.ids i v }
{
    if v.status != Status::Ok {
        return Err(Refusal::Status);
    }
    if leaf::empty(parts::sides_of(v)) {
        return Err(Refusal::LeafSet);
    }
    Ok(lease_plan(r, i, v))
}

// Is j the left or the right neighbour of i, in the leaf set s?
fn is_next(r: &Roster, i: usize, s: Sides, j: usize) -> bool
    requires { i < 64 }
    ensures { result ≡ is_beside r.now.ring r.now.ids i s j }
{
    let (above, below) = leaf::neighbours(r, i, s);
    (above == j) | (below == j)
}

// Is j the left or the right neighbour of node i?
#[tactic(auto, unfolding(plan::specs::Actions::is_neighbour))]
pub fn neighbours(r: &Roster, i: usize, v: Node, j: usize) -> bool
    requires { i < 64 }
    ensures { result ≡ is_neighbour r.now.ring r.now.ids i v j }
{
    is_next(r, i, parts::sides_of(v), j)
}

// LeaseExpired(i, j).
#[tactic(auto, using(rules::proofs::Statuses::statuses), unfolding(plan::specs::Actions::plan_lease_expired))]
pub fn plan_lease_expired(r: &Roster, i: usize, v: Node, j: usize) -> Result<Plan, Refusal>
    requires { i < 64 }
    ensures { result ≡ plan_lease_expired r.now.ring r.now.ids i v j }
{
    let st = v.status;
    if !parts::is_up(st) {
        return Err(Refusal::Status);
    }
    if (i == j) | !marks::is_in(v.lease, j) {
        return Err(Refusal::Partner);
    }
    let near = neighbours(r, i, v, j);
    let next = if (st == Status::Ready) & near {
        Status::Ok
    } else {
        st
    };
    let node = parts::with_leases(v, marks::removed(v.lease, j), v.grant, next);
    Ok(parts::quiet_plan(node))
}

// GrantExpired(i, j): u is the node of j.
#[tactic(auto, unfolding(plan::specs::Actions::plan_grant_expired))]
pub fn plan_grant_expired(i: usize, v: Node, j: usize, u: Node) -> Result<Plan, Refusal>
    ensures { result ≡ plan_grant_expired i v j u }
{
    let st = v.status;
    if !parts::is_up(st) {
        return Err(Refusal::Status);
    }
    if (i == j) | (!marks::is_in(v.grant, j) | marks::is_in(u.lease, i)) {
        return Err(Refusal::Partner);
    }
    let node = parts::with_leases(v, v.lease, marks::removed(v.grant, j), st);
    Ok(parts::quiet_plan(node))
}

// The answer to a LeaseRequest of j, who is a neighbour or not.
pub fn grant_plan(i: u32, v: Node, j: usize, near: bool) -> Plan
    ensures { result ≡ grant_plan i v j near }
{
    let st = v.status;
    let s = parts::sides_of(v);
    if near {
        let node = parts::with_leases(v, v.lease, marks::added(v.grant, j), st);
        parts::send_plan(node, broadcast(i, s, 1), j)
    } else {
        let node = parts::with_leases(v, v.lease, v.grant, st);
        parts::send_plan(node, broadcast(i, s, 0), j)
    }
}

// The taking of a LeaseRequest of j at node i.
#[tactic(auto, unfolding(take::specs::Take::plan_take_lease_request))]
pub fn plan_take_lease_request(r: &Roster, i: usize, v: Node, j: usize) -> Result<Plan, Refusal>
    requires { i < 64 }
    ensures { result ≡ plan_take_lease_request r.now.ring r.now.ids i v j }
{
    if !parts::is_up(v.status) {
        return Err(Refusal::Status);
    }
    if leaf::empty(parts::sides_of(v)) {
        return Err(Refusal::LeafSet);
    }
    let near = neighbours(r, i, v, j);
    Ok(grant_plan(i as u32, v, j, near))
}

// The lease after a broadcast of j: it gains j where the flag is set and j is a neighbour in the new leaf set s.
fn lease_after(r: &Roster, i: usize, v: Node, s: Sides, j: usize, flag: u32) -> u64
    requires { i < 64 }
    ensures { result ≡ lease_after r.now.ring r.now.ids i v s j flag }
{
    if (flag == 1) & is_next(r, i, s, j) {
        marks::added(v.lease, j)
    } else {
        v.lease
    }
}

// The status after a broadcast: ready where both neighbours in s are leased and are the old ones.
fn status_after(r: &Roster, i: usize, v: Node, s: Sides, lease: u64) -> Status
    requires { i < 64 }
    ensures { result ≡ status_after_lease r.now.ring r.now.ids i v s lease }
{
    let st = v.status;
    let (above, below) = leaf::neighbours(r, i, s);
    let (old_above, old_below) = leaf::neighbours(r, i, parts::sides_of(v));
    let leased = marks::is_in(lease, above) & marks::is_in(lease, below);
    let same = (above == old_above) & (below == old_below);
    if leased & same { Status::Ready } else { st }
}

pub fn leased(v: Node, s: Sides, lease: u64, st: Status) -> Node
    ensures { result ≡ leased_node v s lease st }
{
    Node {
        status: st,
        left: s.left,
        right: s.right,
        lease,
        ..v
    }
}

#[tactic(auto, unfolding(take::specs::Take::broadcast_plan))]
fn broadcast_plan(r: &Roster, i: usize, v: Node, m: Message) -> Plan
    requires { i < r.now.ring.n }
    ensures { result ≡ broadcast_plan r.now.ring r.now.ids i v m }
{
    let content = leaf::content(parts::carried_of(m), m.owner as usize);
    let s = leaf::with_set(r, i, parts::sides_of(v), marks::less(content, v.failed));
    let lease = lease_after(r, i, v, s, m.owner as usize, m.flag);
    let st = status_after(r, i, v, s, lease);
    parts::quiet_plan(leased(v, s, lease, st))
}

// The taking of a BroadcastLSet at node i.
#[tactic(auto, unfolding(take::specs::Take::plan_take_broadcast))]
pub fn plan_take_broadcast(r: &Roster, i: usize, v: Node, m: Message) -> Result<Plan, Refusal>
    requires { i < r.now.ring.n }
    ensures { result ≡ plan_take_broadcast r.now.ring r.now.ids i v m }
{
    if !parts::is_up(v.status) {
        return Err(Refusal::Status);
    }
    if !leaf::complete(r.ring, parts::sides_of(v)) {
        return Err(Refusal::LeafSet);
    }
    if m.owner == i as u32 {
        return Err(Refusal::Partner);
    }
    Ok(broadcast_plan(r, i, v, m))
}
