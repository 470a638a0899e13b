// Leaf sets: what they hold, their neighbours and ends, adding nodes, and what they cover.
#![tactic(auto)]

ghost use Rattle.std.specs.Prelude.{◌≡◌, true, ℕ, ◌^◌, ◌<◌, ◌≤◌};
ghost use Rattle.marks.specs.Marks.{has};
ghost use Rattle.rules.specs.Closest.{closest};
ghost use Rattle.rules.specs.InnerSteps.{steps_of, other_than, looked_at};
ghost use Rattle.rules.specs.Leaf.{content_of, seen_from, left_neighbour, right_neighbour, leaf_with, leaf_with_one, overlaps, is_complete, is_full, is_empty, covers_of};

use rules::{Ring, Roster, Sides, Way};

// Both sides and the owner.
#[tactic(auto, unfolding(rules::specs::Leaf::content_of))]
pub fn content(s: Sides, i: usize) -> u64
    ensures { result ≡ content_of s i }
{
    marks::added(marks::joined(s.left, s.right), i)
}

// The best of some nodes as seen from slot i, or i if there are none: a slot.
// Stays: a slot is a plain number here and in the plans, and `i < 64` or `i < n` a clause. 01's definitions speak of numbers, so a type would be taken apart at each
// id, node and mark that a slot finds: no plainer. So with a key and `k < 2 ^ m`, which is taken apart at each distance.
#[tactic(auto, using(rules_laws::proofs::Best::best_low), unfolding(rules::specs::Leaf::seen_from))]
pub fn seen(w: Way, r: &Roster, i: usize, set: u64) -> usize
    requires { i < 64 }
    ensures is { result ≡ seen_from w r.now.ring r.now.ids i set }
    ensures slot { result < 64 }
{
    pick::best(w, r.ring.m, r.ids[i], &r.ids, set).unwrap_or(i)
}

// The left neighbour of node i, and its right neighbour: two slots.
pub fn neighbours(r: &Roster, i: usize, s: Sides) -> (usize, usize)
    requires { i < 64 }
    ensures left { result.0 ≡ left_neighbour r.now.ring r.now.ids i s }
    ensures right { result.1 ≡ right_neighbour r.now.ring r.now.ids i s }
    ensures slots { (result.0 < 64) × (result.1 < 64) }
{
    (seen(Way::Up, r, i, s.left), seen(Way::Down, r, i, s.right))
}

// The slot d steps up from i, or d steps down, wrapping at n.
pub fn along(up: bool, i: usize, n: usize, d: usize) -> usize
    requires { (i < n) × (d < n) × (n ≤ 64) }
    ensures { (result < n) × (steps_of up n i result ≡ d) }
{
    if up {
        if i + d < n { i + d } else { i + d - n }
    } else {
        if d <= i { i - d } else { i + n - d }
    }
}

// Is slot s in the set? The walk from i asks it of no slot before which l members stand.
fn looked(up: bool, set: u64, i: usize, n: usize, l: u32, s: usize) -> bool
    requires { looked_at up set i n l s ≡ true }
    ensures { result ≡ has set s }
{
    marks::is_in(set, s)
}

// The at most l nodes of a set that come first on the way up from slot i, or down. The owner is passed over.
fn first_along(up: bool, set: u64, i: usize, n: usize, l: u32) -> u64
    requires { (i < n) × (n ≤ 64) }
    ensures { result ≡ closest (steps_of up n i) n l (other_than set i) }
{
    let mut out: u64 = 0;
    let mut got: u32 = 0;
    for d in 1..n {
        if got == l {
            return out;
        }
        let s = along(up, i, n, d);
        if looked(up, set, i, n, l, s) {
            out = marks::added(out, s);
            got += 1;
        }
    }
    out
}

// The leaf set of i with d added: ids rise by slot, so the nearest in a direction are the first on the way.
pub fn with_set(r: &Roster, i: usize, s: Sides, d: u64) -> Sides
    requires { i < r.now.ring.n }
    ensures { result ≡ leaf_with r.now.ring r.now.ids i s d }
{
    let left = first_along(true, marks::joined(s.left, d), i, r.ring.n, r.ring.l);
    let right = first_along(false, marks::joined(s.right, d), i, r.ring.n, r.ring.l);
    Sides { left, right }
}

// The leaf set of i with j added, unless j is in it.
#[tactic(auto, unfolding(rules::specs::Leaf::leaf_with_one))]
pub fn with_one(r: &Roster, i: usize, s: Sides, j: usize) -> Sides
    requires { i < r.now.ring.n }
    ensures { result ≡ leaf_with_one r.now.ring r.now.ids i s j }
{
    if marks::is_in(content(s, i), j) {
        s
    } else {
        with_set(r, i, s, marks::of_one(j))
    }
}

// Do the sides share a member?
#[tactic(auto, unfolding(rules::specs::Leaf::overlaps))]
pub fn overlap(s: Sides) -> bool
    ensures { result ≡ overlaps s }
{
    marks::both(s.left, s.right) != 0
}

// Do both sides hold exactly l?
#[tactic(auto, unfolding(rules::specs::Leaf::is_full))]
fn full(g: Ring, s: Sides) -> bool
    ensures { result ≡ is_full g s }
{
    (marks::count(s.left) == g.l) & (marks::count(s.right) == g.l)
}

// Are both sides full, or do they share a member?
#[tactic(auto, unfolding(rules::specs::Leaf::is_complete))]
pub fn complete(g: Ring, s: Sides) -> bool
    ensures { result ≡ is_complete g s }
{
    full(g, s) | overlap(s)
}

// Do both sides hold none?
#[tactic(auto, unfolding(rules::specs::Leaf::is_empty))]
pub fn empty(s: Sides) -> bool
    ensures { result ≡ is_empty s }
{
    (s.left == 0) & (s.right == 0)
}

// Does node i cover k?
#[tactic(auto, unfolding(rules::specs::Leaf::covers_of))]
pub fn covers(r: &Roster, i: usize, s: Sides, k: u32) -> bool
    requires { (i < 64) × (k < 2 ^ r.now.ring.m) }
    ensures { result ≡ covers_of r.now.ring r.now.ids i s k }
{
    let (above, below) = neighbours(r, i, s);
    dist::covers(r.ring.m, r.ids[i], r.ids[above], r.ids[below], k)
}
