// Who holds a key: in a settled table the node that covers it, with copies at that node's neighbours. For any input.
#![tactic(auto)]

ghost use Rattle.std.specs.Prelude.{◌≡◌, ◌&&◌, ◌^◌, ◌<◌};
ghost use Rattle.rules.specs.InnerAsks.{Listed};
ghost use Rattle.rules.specs.Leaf.{covers_of};
ghost use Rattle.rules.specs.Nodes.{sides_of};
ghost use Rattle.rules.specs.Plans.{is_ready};
ghost use Rattle.table_type.specs.Table.{ring_of, ids_of};
ghost use Rattle.holder.specs.Holder.{covered_by, copies_of, held_at, holding_in};
ghost use Rattle.over_holder.specs.Contract.{HeldBy, Number};

use holder::{Holder, Holding, Unheld};
use rules::{Node, Pool, Roster, Status};
use table_type::Table;

// The number of an answer: 0 held, 1 a key out of range, 10 an invalid table or a message list without 256 places, 15 the table is not
// settled.
// Stays: no impl of From can stand for it, since a Result and u32 are both of other crates.
pub fn number(h: Holding) -> u32
    ensures { Number h result }
{
    match h {
        Err(Unheld::NotAsked(why)) => parts::answer_number(Err(why)),
        Err(Unheld::OutOfRange) => 1,
        Err(Unheld::Unsettled) => 15,
        Ok(_) => 0,
    }
}

// Is the node at slot s ready, and does it cover k?
#[tactic(auto, using(rules::proofs::Statuses::statuses))]
fn covers_at(r: &Roster, s: usize, v: Node, k: u32) -> bool
    requires { (s < 64) × (k < 2 ^ r.now.ring.m) }
    ensures { result ≡ (is_ready v.status && covers_of r.now.ring r.now.ids s (sides_of v) k) }
{
    v.status == Status::Ready && leaf::covers(r, s, parts::sides_of(v), k)
}

// The first slot that is ready and covers k. A table need not be listed, and this asks it; what looks at its slots takes a roster, whose type says it.
// Stays: Listed stands in this contract and the three below. With a roster beside the table each would say that it is the table's roster: no fewer clauses.
fn covered_by(t: Table, k: u32) -> Option<usize>
    requires { Listed (ring_of t) (ids_of t) × (k < 2 ^ t.m) }
    ensures { result ≡ covered_by t k }
{
    let r = table_type::roster(t);
    for s in 0..t.n {
        if covers_at(&r, s, t.nodes[s], k) {
            return Some(s);
        }
    }
    None
}

// The neighbours of the node at slot h, other than itself.
#[tactic(auto, unfolding(holder::specs::Holder::copies_of))]
fn copies(t: Table, h: usize) -> u64
    requires { Listed (ring_of t) (ids_of t) × (h < 64) }
    ensures { result ≡ copies_of t h }
{
    let r = table_type::roster(t);
    let (left, right) = leaf::neighbours(&r, h, parts::sides_of(t.nodes[h]));
    marks::removed(marks::added(marks::of_one(left), right), h)
}

// The node that covers k, and the nodes of the copies.
fn held_at(t: Table, k: u32) -> Holding
    requires { Listed (ring_of t) (ids_of t) × (k < 2 ^ t.m) }
    ensures { result ≡ held_at t (covered_by t k) }
{
    let found = covered_by(t, k);
    match found {
        Some(h) => Ok(Holder {
            slot: h,
            copies: copies(t, h),
        }),
        None => Err(Unheld::Unsettled),
    }
}

// The same for any key, in a table of which it is known whether it is settled.
fn looked_for(t: Table, settled: bool, k: u64) -> Holding
    requires { Listed (ring_of t) (ids_of t) }
    ensures { result ≡ holding_in t settled k }
{
    if k >= (1u64 << t.m) {
        return Err(Unheld::OutOfRange);
    }
    if settled {
        held_at(t, k as u32)
    } else {
        Err(Unheld::Unsettled)
    }
}

// Who holds key k: not asked for a list without 256 places or an invalid table (10), then out of range, then not settled, else the node
// that covers k and its neighbours.
pub fn held_by(t: Table, p: Pool, len: usize, k: u64) -> Holding
    ensures { HeldBy t p len k result }
{
    let rest = face_table::settled(t, p, len);
    match rest {
        Ok(settled) => looked_for(t, settled, k),
        Err(why) => Err(Unheld::NotAsked(why)),
    }
}
