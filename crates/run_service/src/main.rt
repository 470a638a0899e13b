// A roof is serviced (T-03): of seven controllers, L = 2, all ready, the fourth is switched off. Each that holds it in its leaf set suspects it, waits in vain
// for its reply, lets its grant expire, declares it dead, repairs its leaf set and asks for its leases anew; the first neighbour asks once more at the end,
// since the second granted nothing while it still held the one that is off. Then the ring without it is settled, and it comes back by a Join. Prints each
// action with its answer, the statuses and the number of waiting messages after it, and between whether the table is settled.
#![tactic(auto)]

use rules::Action;
use run_parts::{Said, Shown};
use table_type::Stepped;

// Stays, with `rest` and `started`, as in run_joins.
fn show(rt: &impl Print, s: &Stepped) {
    let _ = println!(rt; ": {}", Shown { left: s, slots: 7 });
}

// One action of slot i, said with this word.
fn asked(rt: &impl Print, s: Stepped, what: &str, i: usize, a: Action) -> Stepped {
    let _ = print!(rt; "{what} {i}");
    let r = table_step::step(s.table, s.pool, 256, a);
    show(rt, &r);
    r
}

// What the first Take that is done leaves, if one is.
fn taken(s: &Stepped) -> Option<Stepped> {
    (0..s.pool.count)
        .map(|place| table_step::step(s.table, s.pool, 256, Action::Take(place)))
        .find(|r| r.answer.is_ok())
}

// Takes the first message that can be taken, until none can; those for the roof that is off stay.
fn quiet(rt: &impl Print, s: Stepped) -> Stepped {
    let mut now = s;
    for _ in 0..4096u64 {
        let Some(r) = taken(&now) else {
            let _ = print!(rt; "drained");
            show(rt, &now);
            return now;
        };
        now = r;
    }
    now
}

// Every lease of slot i expires, so that its neighbours are asked anew.
fn expired(s: Stepped, i: usize) -> Stepped {
    let mut now = s;
    for j in 0..7 {
        let r = table_step::step(now.table, now.pool, 256, Action::LeaseExpired(i, j));
        if r.answer.is_ok() {
            now = r;
        }
    }
    now
}

// Slot i finds out that slot d is off, and is ready again without it.
fn repaired(rt: &impl Print, s: Stepped, i: usize, d: usize) -> Stepped {
    let suspected = asked(rt, s, "suspect faulty", i, Action::SuspectFaulty(i, d));
    let late = asked(
        rt,
        suspected,
        "probe time out",
        i,
        Action::ProbeTimeOut(i, d),
    );
    let free = asked(rt, late, "grant expired", i, Action::GrantExpired(i, d));
    let without = asked(rt, free, "declare dead", i, Action::DeclareDead(i, d));
    let probing = quiet(rt, asked(rt, without, "repair", i, Action::LSRepair(i)));
    let asking = asked(
        rt,
        expired(probing, i),
        "request lease",
        i,
        Action::RequestLease(i),
    );
    quiet(rt, asking)
}

fn rest(rt: &impl Print, s: Stepped) {
    let _ = println!(rt; "{}", Said(face_table::settled(s.table, s.pool, 256)));
}

fn started(rt: &impl Print, l: u32, ids: &[u32], a: u64) -> Stepped {
    let t = table_parts::no_table();
    let begun = face_table::start(t, face_table::no_messages(), 256, 8, l, ids, a);
    let _ = print!(rt; "start");
    show(rt, &begun);
    begun
}

fn main(rt: HostRuntime) {
    let ids = [10u32, 40, 80, 120, 160, 200, 230];
    let all = started(&rt, 2, &ids, 127);
    rest(&rt, all);
    let off = asked(&rt, all, "node left", 3, Action::NodeLeft(3));
    rest(&rt, off);
    let one = repaired(&rt, off, 2, 3);
    let two = repaired(&rt, one, 4, 3);
    let three = repaired(&rt, two, 1, 3);
    let four = repaired(&rt, three, 5, 3);
    let without = quiet(
        &rt,
        asked(&rt, four, "request lease", 2, Action::RequestLease(2)),
    );
    rest(&rt, without);
    let back = quiet(&rt, asked(&rt, without, "join", 3, Action::Join(3, 2)));
    let whole = quiet(
        &rt,
        asked(&rt, back, "request lease", 3, Action::RequestLease(3)),
    );
    rest(&rt, whole);
}
