// Small parts of tables: what every action answers, done with a table and a pool or refused with what was there; the table of no node and the pool in
// which none waits; the slots by status.
#![tactic(auto)]

ghost use Rattle.std.specs.Prelude.{◌≡◌, [], ◌≤◌};
ghost use Rattle.rules.specs.Pool.{laid};
ghost use Rattle.table_type.specs.Start.{no_table};
ghost use Rattle.table.specs.Settle.{refused_of, done_of};
ghost use Rattle.table_parts.specs.InnerAnswers.{answered_by};
ghost use Rattle.table_parts.specs.InnerSlots.{slots_with};

use rules::{Pool, Refusal, Via};
use table_type::{Stepped, Table};

// The answer with what it leaves, and where the next hop came from.
pub fn answered_by(via: Via, t: Table, p: Pool, answer: Result<(), Refusal>) -> Stepped
    ensures { result ≡ answered_by via t p answer }
{
    Stepped {
        answer,
        table: t,
        pool: p,
        via,
    }
}

// A refusal changes nothing, and routes nothing. Not by a call of `answered_by`, which takes table and pool by value and may copy them once more.
pub fn refused(t: Table, p: Pool, why: Refusal) -> Stepped
    ensures { result ≡ refused_of t p why }
{
    Stepped {
        answer: Err(why),
        table: t,
        pool: p,
        via: Via::Unrouted,
    }
}

// Done, where nothing was routed.
pub fn done(t: Table, p: Pool) -> Stepped
    ensures { result ≡ done_of t p }
{
    answered_by(Via::Unrouted, t, p, Ok(()))
}

// The table of no node.
pub fn no_table() -> Table
    ensures { result ≡ no_table }
{
    let none = table_type::no_node();
    let nodes = [none; 64];
    Table {
        m: 0,
        l: 0,
        n: 0,
        nodes,
    }
}

// The pool in which none waits.
pub fn no_messages() -> Pool
    ensures { result ≡ laid [] }
{
    let none = parts::blank_message();
    Pool {
        count: 0,
        places: [none; 256],
    }
}

// The slots whose status has 01's number so. It takes any number, also one of no status: a `Status` would ask more of callers.
// Stays: that n is at most 64 is a clause, here and in what calls it; a `Table` with an invariant would ask more of all who are to judge any table.
pub fn slots_with(t: Table, number: u32) -> u64
    requires { t.n ≤ 64 }
    ensures { result ≡ slots_with t number }
{
    let mut out: u64 = 0;
    for s in 0..t.n {
        if parts::status_number(t.nodes[s].status) == number {
            out = marks::added(out, s);
        }
    }
    out
}
