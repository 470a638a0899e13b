// For measuring: a set of nodes, or one node, added once to a leaf set, in a ring of n nodes of which each has its slot as its id. It answers the leaf
// set after it, and an empty one where n or the owner's slot is out of range.
#![tactic(auto)]

ghost use Rattle.std.specs.Prelude.{◌≡◌, ℕ, ◌<◌, ◌≤◌, IfSome};
ghost use Rattle.rules.specs.declared.Roster.{Roster};
ghost use Rattle.rules.specs.Pick.{id_at};

use rules::{Ring, Roster, Sides};

// A leaf set as it crosses to another language.
#[repr(C)]
#[derive(Clone, Copy, Debug, PartialEq, Eq)]
pub struct Leaf {
    pub left: u64,
    pub right: u64,
}

// The ids by slot: each its slot.
fn slot_ids() -> [u32; 64]
    ensures { (s : ℕ) → s < 64 → id_at result s ≡ s }
{
    let mut ids = [0u32; 64];
    for s in 0..64 {
        ids[s] = s as u32;
    }
    ids
}

// A ring of n nodes with these ids.
// Stays a clause: n ≤ 64. It has one caller, which tests it.
fn roster(l: u32, n: usize) -> Roster
    requires { n ≤ 64 }
    ensures { result.ring.n ≡ n }
{
    Roster {
        ring: Ring { m: 32, l, n },
        ids: slot_ids(),
    }
}

// The ring of slot i, if n and i are in range.
fn ring_around(n: usize, l: u32, i: usize) -> Option<Roster>
    ensures { IfSome result (λ (r : Roster). i < r.ring.n) }
{
    if n > 64 || i >= n {
        return None;
    }
    Some(roster(l, n))
}

impl From<Sides> for Leaf {
    fn from(s: Sides) -> Leaf {
        Leaf {
            left: s.left,
            right: s.right,
        }
    }
}

// An empty leaf set where there is no ring.
fn crossing(added: Option<Sides>) -> Leaf {
    added.unwrap_or(Sides { left: 0, right: 0 }).into()
}

#[unsafe(no_mangle)]
pub extern "C" fn tarpudhriv_with_set(
    n: usize,
    l: u32,
    i: usize,
    left: u64,
    right: u64,
    d: u64,
) -> Leaf {
    crossing(ring_around(n, l, i).map(|r| leaf::with_set(&r, i, Sides { left, right }, d)))
}

#[unsafe(no_mangle)]
pub extern "C" fn tarpudhriv_with_one(
    n: usize,
    l: u32,
    i: usize,
    left: u64,
    right: u64,
    j: usize,
) -> Leaf {
    crossing(ring_around(n, l, i).map(|r| leaf::with_one(&r, i, Sides { left, right }, j)))
}
