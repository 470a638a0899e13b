// Lookups and joins: the actions Lookup and Join, the delivering and forwarding of a Lookup (kind 1), and the taking of a JoinRequest (kind 2).
#![tactic(auto)]

ghost use Rattle.std.specs.Prelude.{◌≡◌, ◌^◌, ◌<◌, ◌≤◌};
ghost use Rattle.rules.specs.Letters.{lookup, lookup_after, join_request, join_reply, no_legal_route};
ghost use Rattle.plan.specs.Actions.{plan_lookup, plan_join};
ghost use Rattle.take.specs.Take.{forward_plan, plan_deliver, plan_forward, plan_take_join_request};

use rules::{Hop, Message, Node, Plan, Refusal, Roster, Sides, Status};

pub fn lookup_of(k: u32) -> Message
    ensures { result ≡ lookup k }
{
    parts::write_letter(1, k, 0, 0, 0, parts::no_sides(), 0)
}

// A Lookup with its hop number.
pub fn lookup_after(hops: u32, k: u32) -> Message
    ensures { result ≡ lookup_after hops k }
{
    let m = lookup_of(k);
    Message { hops, ..m }
}

pub fn no_legal_route(k: u32) -> Message
    ensures { result ≡ no_legal_route k }
{
    parts::write_letter(6, k, 0, 0, 0, parts::no_sides(), 0)
}

pub fn join_request(j: u32, routing: u64) -> Message
    ensures { result ≡ join_request j routing }
{
    parts::write_letter(2, j, 0, 0, routing, parts::no_sides(), 0)
}

pub fn join_reply(routing: u64, owner: u32, s: Sides) -> Message
    ensures { result ≡ join_reply routing owner s }
{
    parts::write_letter(3, 0, 0, owner, routing, s, 0)
}

// Lookup(i, k): `waits` says whether that Lookup waits.
#[tactic(auto, unfolding(plan::specs::Actions::plan_lookup))]
pub fn plan_lookup(waits: bool, i: usize, k: u32, v: Node) -> Result<Plan, Refusal>
    ensures { result ≡ plan_lookup waits i k v }
{
    if waits {
        return Err(Refusal::Waits);
    }
    Ok(parts::send_plan(v, lookup_of(k), i))
}

// Join(i, seed): `waits` says whether a JoinRequest of i waits, and u is the seed's node.
#[tactic(auto, using(rules::proofs::Statuses::statuses), unfolding(plan::specs::Actions::plan_join))]
pub fn plan_join(waits: bool, i: u32, v: Node, seed: usize, u: Node) -> Result<Plan, Refusal>
    ensures { result ≡ plan_join waits i v seed u }
{
    if !((v.status == Status::Dead) & (u.status == Status::Ready)) {
        return Err(Refusal::Status);
    }
    if waits {
        return Err(Refusal::Waits);
    }
    if !leaf::empty(parts::sides_of(v)) {
        return Err(Refusal::LeafSet);
    }
    let next = parts::with_status(v, Status::Wait);
    Ok(parts::send_plan(next, join_request(i, 0), seed))
}

// A message to the next hop, saying where it came from, or NoLegalRoute of k to i itself.
pub fn forward(next: Hop, v: Node, m: Message, k: u32, i: usize) -> Plan
    ensures { result ≡ forward_plan next v m k i }
{
    let Hop::To(h) = next else {
        return parts::send_plan(v, no_legal_route(k), i);
    };
    parts::send_by(hop::via_of(i, v, h), v, m, h)
}

// Deliver: a message of this kind, with key k where it is a Lookup, at node i.
#[tactic(auto, using(rules::proofs::Statuses::statuses), unfolding(take::specs::Take::plan_deliver))]
pub fn plan_deliver(kind: u32, r: &Roster, i: usize, v: Node, k: u32) -> Result<Plan, Refusal>
    requires { (i < 64) × (kind ≡ 1 → k < 2 ^ r.now.ring.m) }
    ensures { result ≡ plan_deliver kind r.now.ring r.now.ids i v k }
{
    if !(kind == 1) {
        return Err(Refusal::Partner);
    }
    if v.status != Status::Ready {
        return Err(Refusal::Status);
    }
    if !leaf::covers(r, i, parts::sides_of(v), k) {
        return Err(Refusal::Partner);
    }
    Ok(parts::quiet_plan(v))
}

// Forward: the same, to the next hop, with one hop more than it had.
#[tactic(auto, using(rules::proofs::Statuses::statuses), unfolding(take::specs::Take::plan_forward))]
pub fn plan_forward(
    kind: u32,
    r: &Roster,
    dead: u64,
    i: usize,
    v: Node,
    k: u32,
    hops: u32,
) -> Result<Plan, Refusal>
    requires { (i < 64) × (kind ≡ 1 → k < 2 ^ r.now.ring.m) × (hops ≤ 64) }
    ensures { result ≡ plan_forward kind r.now.ring r.now.ids dead i v k hops }
{
    if !(kind == 1) {
        return Err(Refusal::Partner);
    }
    if v.status != Status::Ready {
        return Err(Refusal::Status);
    }
    if leaf::covers(r, i, parts::sides_of(v), k) {
        return Err(Refusal::Partner);
    }
    let next = hop::next_hop(r, dead, i, v, k);
    Ok(forward(next, v, lookup_after(hops + 1, k), k, i))
}

// The taking of a JoinRequest of node j at node i.
#[tactic(auto, using(rules::proofs::Statuses::statuses), unfolding(take::specs::Take::plan_take_join_request))]
pub fn plan_take_join_request(
    r: &Roster,
    dead: u64,
    i: usize,
    v: Node,
    j: u32,
    routing: u64,
) -> Result<Plan, Refusal>
    requires { (i < 64) × (j < 64) }
    ensures { result ≡ plan_take_join_request r.now.ring r.now.ids dead i v j routing }
{
    if v.status != Status::Ready {
        return Err(Refusal::Status);
    }
    let own = parts::sides_of(v);
    let from = j as usize;
    if marks::is_in(leaf::content(own, i), from) {
        return Err(Refusal::Partner);
    }
    let k = r.ids[from];
    if leaf::covers(r, i, own, k) {
        return Ok(parts::send_plan(v, join_reply(routing, i as u32, own), from));
    }
    let next = hop::next_hop(r, dead, i, v, k);
    let m = join_request(j, marks::joined(routing, v.routing));
    Ok(forward(next, v, m, k, i))
}
