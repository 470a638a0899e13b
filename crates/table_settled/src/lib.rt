// Settled, decided.
#![tactic(auto)]

ghost use Rattle.std.specs.Prelude.{◌≡◌, ◌≤◌, ◌<◌};
ghost use Rattle.rules.specs.InnerAsks.{Listed};
ghost use Rattle.table_type.specs.Table.{ring_of, ids_of};
ghost use Rattle.table.specs.Settled.{ready_set, dead_set, settled_at, is_settled};

use rules::{Node, Roster, Status, Way};
use table_type::Table;

// The ready nodes.
fn ready_set(t: Table) -> u64
    requires { t.n ≤ 64 }
    ensures { result ≡ ready_set t }
{
    table_parts::slots_with(t, 3)
}

// The dead nodes.
pub fn dead_set(t: Table) -> u64
    requires { t.n ≤ 64 }
    ensures { result ≡ dead_set t }
{
    table_parts::slots_with(t, 0)
}

// Are both neighbours of the ready node i the next ready ids, and is no ready node in its failed?
#[tactic(auto, unfolding(table::specs::Settled::settled_at))]
fn settled_at(r: &Roster, ready: u64, i: usize, v: Node) -> bool
    requires { i < 64 }
    ensures { result ≡ settled_at r.now.ring r.now.ids ready i v }
{
    let others = marks::removed(ready, i);
    let above = leaf::seen(Way::Up, r, i, v.left) == leaf::seen(Way::Up, r, i, others);
    let below = leaf::seen(Way::Down, r, i, v.right) == leaf::seen(Way::Down, r, i, others);
    above & (below & (marks::both(v.failed, ready) == 0))
}

// Is the table settled? It is asked of valid tables.
// Stays: that its ids rise is a clause, since a caller has the table alone; the roster, whose type says so, is made here.
pub fn is_settled_table(t: Table) -> bool
    requires { Listed (ring_of t) (ids_of t) }
    ensures { result ≡ is_settled t }
{
    let ready = ready_set(t);
    if ready == 0 {
        return false;
    }
    let r = table_type::roster(t);
    for i in 0..t.n {
        let v = t.nodes[i];
        let calm = match v.status {
            Status::Ready => settled_at(&r, ready, i, v),
            Status::Dead => true,
            _ => false,
        };
        if !calm {
            return false;
        }
    }
    true
}
