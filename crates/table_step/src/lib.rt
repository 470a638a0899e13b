// The step: an action on a table and a pool by value. What the action asks of its node is planned first, reading only; then the plan is carried out in place.
#![tactic(auto)]

ghost use Rattle.std.specs.Prelude.{◌≡◌};
ghost use Rattle.step.specs.Step.{step_of};

use rules::{Action, Pool, Refusal};
use table_type::{Stepped, Table};

// One step: 10 for a list without 256 places or an invalid table, then 1 for arguments out of range, then what the action says. A refusal changes nothing.
// One function, since it works on one copy of the table and one of the pool: every function that takes them, and looks at a place by its number, has
// copies of its own. So the pool is handed to others only where they must look: to validity, where an n above 64 and a count above 256 are lowered first
// and put back (else the compiler hands it one more copy of what came in); for a request, to see whether it is repeated, after which the message of a Lookup or a
// Join is known to be new; for a plan that sends; and where probes have timed out, which go while nothing is sent. Where no message is
// taken place 0 is read, and nothing depends on it.
// Stays: `len` goes beside the pool. It is the length of the list that a caller lends, of which 10 speaks (`step_of`); a pool by value has 256 places.
pub fn step(t: Table, p: Pool, len: usize, a: Action) -> Stepped
    ensures { result ≡ step_of t p len a }
{
    let mut u = t;
    let mut q = p;
    u.n = t.n.min(65);
    q.count = p.count.min(257);
    let valid = table_valid::is_valid(u, q);
    u.n = t.n;
    q.count = p.count;
    if !((len == 256) & valid) {
        return table_parts::refused(u, q, Refusal::Invalid);
    }
    let asks = match table_plan::asked(u.m, u.n, q.count, a) {
        Ok(asks) => asks,
        Err(beyond) => return table_parts::refused(u, q, beyond.why),
    };
    let gone = asks.gone;
    let m = q.places[gone % 256];
    let there = asks.request && table_plan::repeated(&q.places[..q.count], a);
    let plan = match table_plan::planned(u, there, m, a) {
        Ok(plan) => plan,
        Err(why) => return table_parts::refused(u, q, why),
    };
    if let Some(j) = asks.timed {
        let k = asks.slot;
        u.nodes[k] = plan.node;
        let left = pool::without_probes(&q.places[..q.count], k as u32, j as u32);
        return table_parts::answered_by(plan.via, u, left, Ok(()));
    }
    let new = if pool::sends(plan) & !asks.fresh {
        pool::news(&q.places[..q.count], gone, plan)
    } else {
        pool::first_new(plan)
    };
    if !pool::room(q.count, gone, new) {
        return table_parts::refused(u, q, Refusal::Full);
    }
    let i = table_plan::slot_of(asks, m);
    u.nodes[i] = plan.node;
    let none = parts::blank_message();
    let mut rest = new.all;
    let mut n = pool::left_count(q.count, gone);
    for at in gone..n {
        q.places[at] = q.places[at + 1];
    }
    if let Some(s) = new.one {
        q.places[n] = parts::to_slot(plan.first, s as u32);
        n += 1;
    }
    // Stays: it visits the slots of a set alone, in rising order; a `for` would test each of the 64.
    while let Some(s) = marks::lowest(rest) {
        q.places[n] = parts::to_slot(plan.each, s as u32);
        n += 1;
        rest = marks::removed(rest, s);
    }
    q.count = n;
    for at in n..256 {
        q.places[at] = none;
    }
    table_parts::answered_by(plan.via, u, q, Ok(()))
}
