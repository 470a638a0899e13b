// One search for all uses: the best slot of a set of nodes, by nearness to a key or by Fall.
#![tactic(auto)]

ghost use Rattle.std.specs.Prelude.{◌≡◌, ℕ, ◌^◌, ◌<◌, ◌≤◌};
ghost use Rattle.rules.specs.InnerAsks.{Keyed, Below};
ghost use Rattle.rules.specs.Pick.{ahead_of, better_of, best_of};

use rules::Way;

// Does slot s come before slot b?
fn ahead(w: Way, m: u32, k: u32, ids: &[u32; 64], s: usize, b: usize) -> bool
    requires { Keyed m k ids.now × (s < 64) × (b < 64) }
    ensures { result ≡ ahead_of w (2 ^ m) k ids.now s b }
{
    let x = ids[s];
    let y = ids[b];
    match w {
        Way::Near => dist::nearer(m, k, x, y),
        Way::Up => dist::fall(m, x, k) < dist::fall(m, y, k),
        Way::Down => dist::fall(m, k, x) < dist::fall(m, k, y),
        Way::FarUp => dist::fall(m, y, k) < dist::fall(m, x, k),
        Way::FarDown => dist::fall(m, k, y) < dist::fall(m, k, x),
    }
}

// Slot s in the place of what was found before, where it comes before it.
fn better(w: Way, m: u32, k: u32, ids: &[u32; 64], found: Option<usize>, s: usize) -> Option<usize>
    requires { Keyed m k ids.now × (s < 64) × Below found 64 }
    ensures { result ≡ better_of (ahead_of w (2 ^ m) k ids.now) found s }
{
    match found {
        Some(b) => {
            if ahead(w, m, k, ids, s, b) {
                Some(s)
            } else {
                Some(b)
            }
        }
        None => Some(s),
    }
}

// The best slot of a set. Only its members are looked at, each taken out in its turn: an iterator over marks would be a type and a contract more for this loop and
// the step's, and no plainer.
// Stays: `m`, `k` and `ids` under Keyed, and no roster, since a roster says also that the ids rise, which is more than is asked here.
pub fn best(w: Way, m: u32, k: u32, ids: &[u32; 64], set: u64) -> Option<usize>
    requires { Keyed m k ids.now }
    ensures { result ≡ best_of w (2 ^ m) k ids.now set }
{
    let mut found = None;
    let mut rest = set;
    while let Some(s) = marks::lowest(rest) {
        found = better(w, m, k, ids, found, s);
        rest = marks::removed(rest, s);
    }
    found
}
