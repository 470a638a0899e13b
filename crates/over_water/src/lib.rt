// Water records, on top of the ring, of which they see who holds a key. A store has the originals, each with the slots of its copies. It
// is no part of a table, so that the ring's steps don't move what it holds.
#![tactic(auto)]

ghost use Rattle.std.specs.Prelude.{◌≡◌, ◌^◌, ◌<◌, ◌≤◌, nat_abs};
ghost use Rattle.water.specs.Water.{in_range, change_of, count_of, held_of, seat_of, kept_at};
ghost use Rattle.water.specs.Water.{refused_of, put_of, place_by};
ghost use Rattle.water.specs.Water.{alike as alike_of};
ghost use Rattle.over_water.specs.Contract.{Number, Empty, Change, Place, LookUp, Sum};

use holder::{Holder, Holding, Unheld};
use rules::Pool;
use table_type::Table;
use water::{Held, Placed, Record, Reply, Store, Why};

// The number of a reply: 0 accepted, 10 an invalid table or a message list without 256 places, 14 a number out of range, 15 the table is
// not settled, 16 no room for a new key and month.
// Stays: no impl of From can stand for it, since a Result and u32 are both of other crates.
pub fn number(r: Reply) -> u32
    ensures { Number r result }
{
    match r {
        Ok(()) => 0,
        Err(why) => why as u32,
    }
}

// The store in which nothing is held.
pub fn empty() -> Store
    ensures { Empty result }
{
    let none = Held {
        original: Record {
            key: 0,
            month: 0,
            rain: 0,
            evapotranspiration: 0,
            runoff: 0,
        },
        holder: 0,
        copies: 0,
    };
    Store {
        count: 0,
        places: [none; 512],
    }
}

// Rain - evapotranspiration - runoff, which is far from the ends of its range.
fn difference(r: Record) -> i64
    ensures { (result ≡ change_of r) × (nat_abs result ≤ 2 ^ 34) }
{
    r.rain as i64 - r.evapotranspiration as i64 - r.runoff as i64
}

// The change of stored water: rain - evapotranspiration - runoff.
pub fn change(r: Record) -> i64
    ensures { Change r result }
{
    difference(r)
}

// Are they of the same key and month?
// Stays: 01's relation, and no equality: the amounts may differ, for a later record takes the place of an earlier one.
fn alike(a: Record, b: Record) -> bool
    ensures { result ≡ alike_of a b }
{
    (a.key == b.key) & (a.month == b.month)
}

// Is the month from 1 to 12, and are the three amounts at most 100,000?
fn in_range(r: Record) -> bool
    ensures { result ≡ in_range r }
{
    (1 <= r.month)
        & ((r.month <= 12)
            & ((r.rain <= 100000) & ((r.evapotranspiration <= 100000) & (r.runoff <= 100000))))
}

// How many places are looked at.
fn held_count(n: usize) -> usize
    ensures value { result ≡ count_of n }
    ensures low { result ≤ 512 }
{
    n.min(512)
}

// Its seat: the place of the held record of the same key and month, or the one behind the last.
fn seat(s: Store, r: Record) -> usize
    ensures { result ≡ seat_of (held_of s) r }
{
    let n = held_count(s.count);
    for i in 0..n {
        let h = s.places[i];
        let q = h.original;
        if alike(q, r) {
            return i;
        }
    }
    n
}

// The store with h at place i: in place of what is there, or one more.
fn kept(s: Store, i: usize, h: Held) -> Store
    requires { i < 512 }
    ensures { result ≡ kept_at s i h }
{
    let mut out = s;
    out.places[i] = h;
    if out.count <= i {
        out.count += 1;
    }
    out
}

fn refused(s: Store, why: Why) -> Placed
    ensures { result ≡ refused_of s why }
{
    Placed {
        reply: Err(why),
        store: s,
    }
}

// A record in range, held at a slot, with copies at others: 16 if it has no place.
fn put(s: Store, r: Record, by: Holder) -> Placed
    ensures { result ≡ put_of s r by.slot by.copies }
{
    let i = seat(s, r);
    if i >= 512 {
        return refused(s, Why::NoRoom);
    }
    let h = Held {
        original: r,
        holder: by.slot,
        copies: by.copies,
    };
    Placed {
        reply: Ok(()),
        store: kept(s, i, h),
    }
}

// A record whose key and table are looked at already.
#[tactic(auto, unfolding(water::specs::Water::place_by))]
fn place_by(w: Holding, s: Store, r: Record) -> Placed
    ensures { result ≡ place_by w s r }
{
    match w {
        Err(Unheld::NotAsked(_)) => refused(s, Why::Invalid),
        Err(Unheld::OutOfRange) => refused(s, Why::OutOfRange),
        _ if !in_range(r) => refused(s, Why::OutOfRange),
        Err(Unheld::Unsettled) => refused(s, Why::Unsettled),
        Ok(by) => put(s, r, by),
    }
}

// Places a record: at the node that covers its key, with copies at that node's neighbours, and in place of an earlier one of the same key
// and month. A refusal leaves the store as it is.
pub fn place(t: Table, p: Pool, len: usize, s: Store, r: Record) -> Placed
    ensures { Place t p len s r result }
{
    place_by(over_holder::held_by(t, p, len, r.key), s, r)
}

// What is held of a key and month.
pub fn look_up(s: Store, key: u64, month: u32) -> Option<Held>
    ensures { LookUp s key month result }
{
    let r = Record {
        key,
        month,
        rain: 0,
        evapotranspiration: 0,
        runoff: 0,
    };
    let i = seat(s, r);
    if i < held_count(s.count) {
        Some(s.places[i])
    } else {
        None
    }
}

// The sum of the changes over the held originals.
pub fn sum(s: Store) -> i64
    ensures { Sum s result }
{
    let n = held_count(s.count);
    let mut out: i64 = 0;
    for i in 0..n {
        let h = s.places[i];
        let r = h.original;
        out += difference(r);
    }
    out
}
