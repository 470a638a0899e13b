// The waiting messages, as a step reads them: whether a request waits, which of a plan's messages are new, and whether they have room; and the pool without the
// probes that have timed out. The pool after the plan is made by the step itself. "Once place `gone` is away": where gone is at or above the count, none is away.
#![tactic(auto)]

ghost use Rattle.std.specs.Prelude.{◌≡◌, true, ◌++◌, ◌≤◌, ◌<◌, ◌^◌, length};
ghost use Rattle.rules.specs.Mail.{fields_of, first_equal};
ghost use Rattle.rules.specs.Mail.{alike as alike_of, join_waits, waits as waits_of, is_probe_from, removed_at, without_probes, reply_waits};
ghost use Rattle.rules.specs.Pool.{laid};
ghost use Rattle.marks.specs.Marks.{without};
ghost use Rattle.pool_laws.specs.InnerSending.{left_count, place_of, slotted, held_of, held_with, copy_to};
ghost use Rattle.pool_laws.specs.InnerSending.{new_to, news_of, sends_of, first_new, room_of};
ghost use Rattle.pool_laws.specs.InnerMix.{mix_of, bucket_of};

use pool_laws::New;
use rules::{Message, Plan, Pool};

// A message's fields in a row, but for its hops.
fn fields(m: Message) -> [u64; 9]
    ensures { result ≡ fields_of m }
{
    [
        m.dest as u64,
        m.kind as u64,
        m.word as u64,
        m.flag as u64,
        m.owner as u64,
        m.routing,
        m.left,
        m.right,
        m.failed,
    ]
}

// Are the two equal in every field but the hops?
pub fn alike(a: Message, b: Message) -> bool
    ensures { result ≡ alike_of a b }
{
    Message { hops: b.hops, ..a } == b
}

// How many of n messages are left once place `gone` is away.
#[tactic(auto, unfolding(pool_laws::specs::InnerSending::left_count))]
pub fn left_count(n: usize, gone: usize) -> usize
    ensures { result ≡ left_count n gone }
{
    if gone < n { n - 1 } else { n }
}

// The place of what comes at place `at` once place `gone` is away.
#[tactic(auto, unfolding(pool_laws::specs::InnerSending::place_of))]
pub fn place_of(gone: usize, at: usize) -> usize
    requires { at < 2 ^ 63 }
    ensures { result ≡ place_of gone at }
{
    if at < gone { at } else { at + 1 }
}

// The first message that equals m, in pool order, of those left once place `gone` is away. 01 names this form: a loop over places and fields, left by label, the
// place yielded by break (docs/DECISIONS.md, "01's code places").
fn first_equal(waiting: &[Message], gone: usize, m: Message) -> Option<usize>
    ensures { result ≡ first_equal (removed_at waiting.now gone) m }
{
    let n = left_count(waiting.len(), gone);
    let b = fields(m);
    let mut at: usize = 0;
    let found = 'places: loop {
        if n <= at {
            break 'places None;
        }
        let place = place_of(gone, at);
        let a = fields(waiting[place]);
        for f in 0..9 {
            if a[f] != b[f] {
                at += 1;
                continue 'places;
            }
        }
        break 'places Some(at);
    };
    found
}

// Is an equal of m left once place `gone` is away?
#[tactic(auto, unfolding(rules::specs::Mail::waits))]
pub fn waits(waiting: &[Message], gone: usize, m: Message) -> bool
    ensures { result ≡ waits_of (removed_at waiting.now gone) m }
{
    first_equal(waiting, gone, m).is_some()
}

// Does a JoinRequest of node i wait?
pub fn join_waits(waiting: &[Message], i: u32) -> bool
    ensures { result ≡ join_waits waiting.now i }
{
    waiting.iter().any(|q| (q.kind == 2) & (q.word == i))
}

// Does a JoinReply to node i wait?
pub fn reply_waits(waiting: &[Message], i: u32) -> bool
    ensures { result ≡ reply_waits waiting.now i }
{
    waiting.iter().any(|q| (q.kind == 3) & (q.dest == i))
}

// Is m an LSProbe from i to j?
pub fn is_probe_from(i: u32, j: u32, m: Message) -> bool
    ensures { result ≡ is_probe_from i j m }
{
    (m.kind == 4) & ((m.word == i) & (m.dest == j))
}

// The pool without the LSProbes from i to j, wherever they stand: the others in their order, and blank places behind them.
pub fn without_probes(waiting: &[Message], i: u32, j: u32) -> Pool
    requires { length waiting.now ≤ 256 }
    ensures { result ≡ laid (without_probes waiting.now i j) }
{
    let none = parts::blank_message();
    let mut places = [none; 256];
    let mut count: usize = 0;
    for &m in waiting {
        if !is_probe_from(i, j, m) {
            places[count] = m;
            count += 1;
        }
    }
    Pool { count, places }
}

// A number made of a message's fields, but for the flag.
#[tactic(auto, unfolding(pool_laws::specs::InnerMix::mix_of))]
fn mix(m: Message) -> u64
    ensures { result ≡ mix_of m }
{
    let low = (m.word as u64)
        ^ ((m.kind as u64) << 32)
        ^ ((m.dest as u64) << 36)
        ^ ((m.owner as u64) << 43);
    low ^ m.routing ^ m.left ^ m.right ^ m.failed
}

// The bucket of a message, below 509.
pub fn bucket(m: Message) -> usize
    ensures { result ≡ bucket_of m }
{
    (mix(m) % 509) as usize
}

// A set of slots, with q's if q equals m in all but the slot.
pub fn held_with(set: u64, q: Message, m: Message) -> u64
    ensures { result ≡ held_with m set q }
{
    let one = parts::to_slot(m, q.dest);
    if alike(q, one) {
        marks::added(set, q.dest as usize)
    } else {
        set
    }
}

// The slots to which an equal of m is left once place `gone` is away.
fn held(waiting: &[Message], gone: usize, m: Message) -> u64
    ensures { result ≡ held_of m (removed_at waiting.now gone) }
{
    let mut set: u64 = 0;
    for at in 0..left_count(waiting.len(), gone) {
        set = held_with(set, waiting[place_of(gone, at)], m);
    }
    set
}

// The slot to which m is new, if it goes to one and no equal is left.
fn new_one(waiting: &[Message], gone: usize, m: Message, to: Option<usize>) -> Option<usize>
    requires { slotted to ≡ true }
    ensures { result ≡ new_to m to (removed_at waiting.now gone) }
{
    let s = to?;
    if waits(waiting, gone, parts::to_slot(m, s as u32)) {
        None
    } else {
        Some(s)
    }
}

// The slots of a set to which m is new, where `first` is new to the slot `one`, if there is one.
#[tactic(auto, using(pool_laws::proofs::Fresh::all_none, pool_laws::proofs::Fresh::all_after))]
fn new_all(
    waiting: &[Message],
    gone: usize,
    first: Message,
    one: Option<usize>,
    m: Message,
    set: u64,
) -> u64
    requires { slotted one ≡ true }
    ensures { result ≡ without set (held_of m (removed_at waiting.now gone ++ copy_to first one)) }
{
    if set == 0 {
        return 0;
    }
    let have = held(waiting, gone, m);
    let Some(s) = one else {
        return marks::less(set, have);
    };
    let q = parts::to_slot(first, s as u32);
    marks::less(set, held_with(have, q, m))
}

// Does the plan send anything?
pub fn sends(plan: Plan) -> bool
    ensures { result ≡ sends_of plan }
{
    let to = plan.to;
    match to {
        Some(_) => true,
        None => plan.all != 0,
    }
}

// The plan's first message counted as new, if there is one, and no other.
pub fn first_new(plan: Plan) -> New
    ensures { result ≡ first_new plan }
{
    let one = plan.to;
    New { one, all: 0 }
}

// Which of the plan's messages are new once place `gone` is away.
#[tactic(auto, using(pool_laws::proofs::Fresh::news_are))]
pub fn news(waiting: &[Message], gone: usize, plan: Plan) -> New
    requires { slotted plan.to ≡ true }
    ensures { result ≡ news_of plan (removed_at waiting.now gone) }
{
    let first = plan.first;
    let to = plan.to;
    let one = new_one(waiting, gone, first, to);
    let all = new_all(waiting, gone, first, one, plan.each, plan.all);
    New { one, all }
}

// Does the pool after the step hold at most 256? Of n messages place `gone` is away, and the new ones are there.
pub fn room(n: usize, gone: usize, new: New) -> bool
    requires { n ≤ 256 }
    ensures { result ≡ room_of n gone new }
{
    let one = new.one;
    let more: usize = match one {
        Some(_) => 1,
        None => 0,
    };
    left_count(n, gone) + (more + marks::count(new.all) as usize) <= 256
}
