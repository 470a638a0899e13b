// What an action asks, as the step reads it: whether it is in range, whose node acts and whose message goes, whether the same request waits,
// and what is planned. The plans are those of the crates below, made of the table.
#![tactic(auto)]

ghost use Rattle.std.specs.Prelude.{◌≡◌, true, ◌<◌, ◌≤◌};
ghost use Rattle.rules.specs.declared.Pool.{Pool};
ghost use Rattle.rules.specs.Fits.{message_fits};
ghost use Rattle.rules.specs.Pool.{waiting as waiting_of};
ghost use Rattle.take.specs.Take.{plan_take};
ghost use Rattle.table_type.specs.declared.Table.{Table};
ghost use Rattle.step.specs.Step.{asked as asked_of};
ghost use Rattle.table.specs.Settled.{some_up};
ghost use Rattle.table_plan.specs.InnerAsked.{Called, Read, Asks, in_range, requests_of, acts_of, times_of, takes_of, slot_with};

use rules::{Action, Message, Node, Plan, Refusal, Roster};
use table_settled::dead_set;
use table_type::{Table, node_at, roster};

// What an action asks, but for its plan: the place whose message goes, past every count where none does; the slot whose node acts, where none goes;
// whether 3 is asked; whether what is sent is new unless the same request waits; and of whom probes have timed out, if they have.
// Stays: `gone` and `slot` are numbers also where none is asked. What is left, and how many, is defined of a place at or past the count too (`removed_at`,
// `left_count`): the step would make such a place of an Option again at each of its five uses. `request` and `fresh` have no value beside them.
#[derive(Clone, Copy)]
pub struct Asking {
    pub gone: usize,
    pub slot: usize,
    pub request: bool,
    pub fresh: bool,
    pub timed: Option<usize>,
}

// Why an action out of range is refused, and what it asks all the same: of this is told what is told in range, the partner's bound aside.
#[derive(Clone, Copy)]
pub struct Beyond {
    pub why: Refusal,
    pub asks: Asking,
}

// What message m asks of its destination i, by its kind.
// Stays: a kind is 01's number, since a table that is not valid has messages of any (`rules::Message`).
fn plan_take(r: &Roster, dead: u64, i: usize, v: Node, m: Message) -> Result<Plan, Refusal>
    requires { (i < r.now.ring.n) × (message_fits r.now.ring m ≡ true) }
    ensures { result ≡ plan_take m.kind r.now.ring r.now.ids dead i v m }
{
    match m.kind {
        2 => plan_route::plan_take_join_request(r, dead, i, v, m.word, m.routing),
        3 => plan_probe::plan_take_join_reply(r, i, v, m),
        4 => plan_probe::plan_take_probe(r, i, v, m),
        5 => plan_probe::plan_take_probe_reply(r, i, v, m),
        7 => plan_lease::plan_take_lease_request(r, i, v, m.word as usize),
        8 => plan_lease::plan_take_broadcast(r, i, v, m),
        _ => Err(Refusal::Partner),
    }
}

// Is some node ok or ready?
fn some_up(t: Table) -> bool
    requires { t.n ≤ 64 }
    ensures { result ≡ some_up t }
{
    (table_parts::slots_with(t, 2) != 0) | (table_parts::slots_with(t, 3) != 0)
}

// No message goes, no node is named, nothing is asked or sent, and no probes have timed out.
const NOTHING: Asking = Asking {
    gone: 256,
    slot: 64,
    request: false,
    fresh: false,
    timed: None,
};

// What is asked, where it is in range; else 1, and what is asked all the same.
fn in_range(range: bool, asks: Asking) -> Result<Asking, Beyond>
    ensures { result ≡ in_range range asks }
{
    if range {
        Ok(asks)
    } else {
        Err(Beyond {
            why: Refusal::OutOfRange,
            asks,
        })
    }
}

// The four ways to ask: of the node of slot i, where 3 is asked; of the same, where it is not; of the same, whose probes of j have timed out; of the
// destination of a waiting message.
fn requests(n: usize, i: usize, more: bool, fresh: bool) -> Result<Asking, Beyond>
    ensures { result ≡ requests_of n i more fresh }
{
    let asks = Asking {
        slot: i,
        request: true,
        fresh,
        ..NOTHING
    };
    in_range(more & (i < n), asks)
}

fn acts(n: usize, i: usize, more: bool) -> Result<Asking, Beyond>
    ensures { result ≡ acts_of n i more }
{
    let asks = Asking { slot: i, ..NOTHING };
    in_range(more & (i < n), asks)
}

fn times(n: usize, i: usize, j: usize) -> Result<Asking, Beyond>
    ensures { result ≡ times_of n i j }
{
    let asks = Asking {
        slot: i,
        timed: Some(j),
        ..NOTHING
    };
    in_range((j < n) & (i < n), asks)
}

fn takes(count: usize, place: usize) -> Result<Asking, Beyond>
    ensures { result ≡ takes_of count place }
{
    let asks = Asking {
        gone: place,
        ..NOTHING
    };
    in_range(place < count, asks)
}

// What the action asks of a table with these numbers and so many messages; where a slot, place or key is out of range, 1 and what is asked
// all the same.
pub fn asked(m: u32, n: usize, count: usize, a: Action) -> Result<Asking, Beyond>
    requires { m ≤ 32 }
    ensures { Asks m n count a result }
{
    let size = 1u64 << m;
    match a {
        Action::Lookup(i, k) => requests(n, i, k < size, true),
        Action::Join(i, seed) => requests(n, i, seed < n, true),
        Action::RequestLease(i) => acts(n, i, true),
        Action::LeaseExpired(i, j) => acts(n, i, j < n),
        Action::GrantExpired(i, j) => acts(n, i, j < n),
        Action::Take(place) => takes(count, place),
        Action::Deliver(place) => takes(count, place),
        Action::Forward(place) => takes(count, place),
        Action::NodeLeft(i) => acts(n, i, true),
        Action::SuspectFaulty(i, j) => acts(n, i, j < n),
        Action::ProbeTimeOut(i, j) => times(n, i, j),
        Action::DeclareDead(i, j) => acts(n, i, j < n),
        Action::LSRepair(i) => acts(n, i, true),
        Action::ResignNode(i, k) => requests(n, i, k < n, false),
        Action::Recover(i) => acts(n, i, true),
    }
}

// The slot whose node acts, where m is the message that goes, if one does.
pub fn slot_of(x: Asking, m: Message) -> usize
    ensures { result ≡ slot_with x m }
{
    if x.gone < 256 {
        m.dest as usize
    } else {
        x.slot
    }
}

// Does the same request already wait?
pub fn repeated(waiting: &[Message], a: Action) -> bool
    requires { (t : Table) × (p : Pool) × Called t p a × (waiting.now ≡ waiting_of p) }
    ensures { (t : Table) → (p : Pool) → waiting.now ≡ waiting_of p → result ≡ (asked_of t p a).repeated }
{
    match a {
        Action::Lookup(i, k) => pool::waits(
            waiting,
            waiting.len(),
            parts::to_slot(plan_route::lookup_of(k as u32), i as u32),
        ),
        Action::Join(i, _) => pool::join_waits(waiting, i as u32),
        Action::ResignNode(i, _) => pool::reply_waits(waiting, i as u32),
        _ => false,
    }
}

// What is planned, where m is the message that goes, if one does, and `there` says whether the same request waits.
pub fn planned(t: Table, there: bool, m: Message, a: Action) -> Result<Plan, Refusal>
    requires { (p : Pool) × Called t p a × Read t p a m }
    ensures { (p : Pool) → Read t p a m → result ≡ (asked_of t p a).plan there }
{
    let to = m.dest as usize;
    match a {
        Action::Lookup(i, k) => plan_route::plan_lookup(there, i, k as u32, node_at(t, i)),
        Action::Join(i, seed) => plan_route::plan_join(
            there,
            i as u32,
            node_at(t, i),
            seed,
            node_at(t, seed),
        ),
        Action::RequestLease(i) => plan_lease::plan_request_lease(&roster(t), i, node_at(t, i)),
        Action::LeaseExpired(i, j) => plan_lease::plan_lease_expired(
            &roster(t),
            i,
            node_at(t, i),
            j,
        ),
        Action::GrantExpired(i, j) => plan_lease::plan_grant_expired(
            i,
            node_at(t, i),
            j,
            node_at(t, j),
        ),
        Action::Take(_) => plan_take(&roster(t), dead_set(t), to, node_at(t, to), m),
        Action::Deliver(_) => plan_route::plan_deliver(
            m.kind,
            &roster(t),
            to,
            node_at(t, to),
            m.word,
        ),
        Action::Forward(_) => plan_route::plan_forward(
            m.kind,
            &roster(t),
            dead_set(t),
            to,
            node_at(t, to),
            m.word,
            m.hops,
        ),
        Action::NodeLeft(i) => plan_leave::plan_node_left(node_at(t, i)),
        Action::SuspectFaulty(i, j) => plan_leave::plan_suspect_faulty(i, node_at(t, i), j),
        Action::ProbeTimeOut(i, j) => plan_leave::plan_probe_time_out(i, node_at(t, i), j),
        Action::DeclareDead(i, j) => plan_leave::plan_declare_dead(&roster(t), i, node_at(t, i), j),
        Action::LSRepair(i) => plan_leave::plan_ls_repair(&roster(t), i, node_at(t, i)),
        Action::ResignNode(i, k) => plan_leave::plan_resign_node(
            there,
            i,
            node_at(t, i),
            k,
            node_at(t, k),
        ),
        Action::Recover(i) => plan_leave::plan_recover(some_up(t), &roster(t), i, node_at(t, i)),
    }
}
