// The next hop of a lookup or a join request, and where it came from.
#![tactic(auto)]

ghost use Rattle.std.specs.Prelude.{◌≡◌, ℕ, cond, ◌^◌, ◌<◌, ◌≤◌};
ghost use Rattle.rules.specs.Hop.{legal_of, by_leaf, leaf_candidates, route_candidates, next_hop, via_of};

use rules::{Hop, Node, Roster, Via, Way};

// Is the leaf set alone looked at?
#[tactic(auto, unfolding(rules::specs::Hop::by_leaf))]
fn by_leaf(r: &Roster, i: usize, v: Node) -> bool
    requires { i < 64 }
    ensures { result ≡ by_leaf r.now.ring r.now.ids i v }
{
    let s = parts::sides_of(v);
    if leaf::overlap(s) {
        return true;
    }
    let above = r.ids[leaf::seen(Way::FarUp, r, i, v.left)];
    let below = r.ids[leaf::seen(Way::FarDown, r, i, v.right)];
    dist::fall(r.ring.m, above, r.ids[i]) <= dist::fall(r.ring.m, above, below)
}

// Some nodes without failed and dead.
fn legal(dead: u64, v: Node, set: u64) -> u64
    ensures { result ≡ legal_of dead v set }
{
    marks::less(marks::less(set, v.failed), dead)
}

// Content without failed and dead.
#[tactic(auto, unfolding(rules::specs::Hop::leaf_candidates))]
pub fn leaf_candidates(dead: u64, i: usize, v: Node) -> u64
    ensures { result ≡ leaf_candidates dead i v }
{
    legal(dead, v, leaf::content(parts::sides_of(v), i))
}

// Content and routing set, without failed and dead.
#[tactic(auto, unfolding(rules::specs::Hop::route_candidates))]
pub fn route_candidates(dead: u64, i: usize, v: Node) -> u64
    ensures { result ≡ route_candidates dead i v }
{
    let content = leaf::content(parts::sides_of(v), i);
    legal(dead, v, marks::joined(content, v.routing))
}

// The candidates of the branch taken.
fn candidates(r: &Roster, dead: u64, i: usize, v: Node) -> u64
    requires { i < 64 }
    ensures { result ≡ cond (by_leaf r.now.ring r.now.ids i v) (leaf_candidates dead i v) (route_candidates dead i v) }
{
    if by_leaf(r, i, v) {
        leaf_candidates(dead, i, v)
    } else {
        route_candidates(dead, i, v)
    }
}

// Where a lookup of k goes from node i.
pub fn next_hop(r: &Roster, dead: u64, i: usize, v: Node, k: u32) -> Hop
    requires { (i < 64) × (k < 2 ^ r.now.ring.m) }
    ensures { result ≡ next_hop r.now.ring r.now.ids dead i v k }
{
    let set = candidates(r, dead, i, v);
    let Some(h) = pick::best(Way::Near, r.ring.m, k, &r.ids, set) else {
        return Hop::NoRoute;
    };
    let there = dist::rank(r.ring.m, k, r.ids[h]);
    let here = dist::rank(r.ring.m, k, r.ids[i]);
    if there < here {
        Hop::To(h)
    } else {
        Hop::NoRoute
    }
}

// Where the next hop h of node i came from: the leaf set, or the routing set alone.
#[tactic(auto, unfolding(rules::specs::Hop::via_of))]
pub fn via_of(i: usize, v: Node, h: usize) -> Via
    ensures { result ≡ via_of i v h }
{
    if marks::is_in(leaf::content(parts::sides_of(v), i), h) {
        Via::Leaf
    } else {
        Via::Routing
    }
}
