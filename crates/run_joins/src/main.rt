// Joins that work: 17, then 65, then 95 join at 18, the only node ready at the start. Prints each action with its answer, the statuses and the number of
// waiting messages after it, and at the end whether the table is settled. Then joins into small estates, where L is 4 and no side can be full: into three, into
// two and into one (T-02). Then three steps on what is not valid, which are refused with 10.
#![tactic(auto)]

use rules::{Action, Pool};
use run_parts::{Said, Shown};
use table_type::{Stepped, Table};

// Stays, with `rest` and `started`, beside those of run_service: what is public is to have a contract, and of a function that prints a contract says nothing.
fn show(rt: &impl Print, s: &Stepped) {
    let _ = println!(rt; ": {}", Shown { left: s, slots: 4 });
}

// Makes an action, and shows what it left.
fn stepped(rt: &impl Print, s: Stepped, a: Action) -> Stepped {
    let r = table_step::step(s.table, s.pool, 256, a);
    show(rt, &r);
    r
}

// Takes the first message until none waits.
fn drained(rt: &impl Print, s: Stepped) -> Stepped {
    let mut now = s;
    for _ in 0..64u64 {
        if now.pool.count == 0 {
            return now;
        }
        let _ = print!(rt; "take 0");
        now = stepped(rt, now, Action::Take(0));
    }
    now
}

fn joined(rt: &impl Print, s: Stepped, i: usize, seed: usize) -> Stepped {
    let _ = print!(rt; "join {i} {seed}");
    let asked = drained(rt, stepped(rt, s, Action::Join(i, seed)));
    let _ = print!(rt; "request lease {i}");
    drained(rt, stepped(rt, asked, Action::RequestLease(i)))
}

fn rest(rt: &impl Print, s: Stepped) {
    let _ = println!(rt; "{}", Said(face_table::settled(s.table, s.pool, 256)));
}

fn started(rt: &impl Print, l: u32, ids: &[u32], a: u64) -> Stepped {
    let t = table_parts::no_table();
    let begun = face_table::start(t, face_table::no_messages(), 256, 8, l, ids, a);
    let _ = print!(rt; "start");
    show(rt, &begun);
    begun
}

// The slots of a are ready, L is 4, and slot i joins at the seed.
fn estate(rt: &impl Print, what: &str, ids: &[u32], a: u64, i: usize, seed: usize) {
    let _ = println!(rt; "{what}");
    rest(rt, joined(rt, started(rt, 4, ids, a), i, seed));
}

// A step on what is not valid: its number, and the n and the count that it leaves.
fn unsound(rt: &impl Print, what: &str, t: Table, p: Pool, len: usize) {
    let r = table_step::step(t, p, len, Action::RequestLease(0));
    let number = parts::answer_number(r.answer);
    let n = r.table.n;
    let count = r.pool.count;
    let _ = println!(rt; "{what}: {number}, nodes {n}, waiting {count}");
}

fn main(rt: HostRuntime) {
    let ids = [17u32, 18, 65, 95];
    let all = joined(
        &rt,
        joined(&rt, joined(&rt, started(&rt, 1, &ids, 2), 0, 1), 2, 1),
        3,
        1,
    );
    rest(&rt, all);
    estate(&rt, "three and one", &ids, 7, 3, 2);
    let three = [17u32, 18, 65];
    estate(&rt, "two and one", &three, 3, 2, 1);
    let two = [17u32, 18];
    estate(&rt, "one and one", &two, 1, 1, 0);
    let t = all.table;
    let p = all.pool;
    unsound(&rt, "a list of 255 places", t, p, 255);
    let mut u = t;
    u.n = 65;
    unsound(&rt, "65 nodes", u, p, 256);
    let mut q = p;
    q.count = 257;
    unsound(&rt, "257 messages", t, q, 256);
}
