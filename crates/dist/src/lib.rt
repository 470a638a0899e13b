// Distances between ids of at most 32 digits. Each function is the definition of the same name, for ids below 2^m; `face_dist` answers callers who may be out of range.
// Stays: Inside is a clause of each. A type of ids with their number of digits would be made of a word at each call and taken apart for each difference: no plainer.
#![tactic(auto)]

ghost use Rattle.std.specs.Prelude.{◌≡◌, ◌^◌};
ghost use Rattle.ring.specs.Distance.{fall_of, signed_of, abs_dist_of, left_cover_of, right_cover_of, covers_key};
ghost use Rattle.ring.specs.Distance.{nearer as nearer_of};
ghost use Rattle.ring.specs.InnerRank.{rank as rank_of};
ghost use Rattle.rules.specs.InnerAsks.{Width, Inside};

// The number of ids.
fn size(m: u32) -> u64
    requires { Width m }
    ensures { result ≡ 2 ^ m }
{
    1u64 << m
}

// (x - y) mod 2^m: the difference goes round the full 32-bit range first.
pub fn fall(m: u32, x: u32, y: u32) -> u64
    requires { Inside m x y }
    ensures { result ≡ fall_of (2 ^ m) x y }
{
    let d = x.wrapping_sub(y);
    (d as u64) % size(m)
}

// The signed distance, from -2^m / 2 to 2^m / 2.
pub fn signed(m: u32, x: u32, y: u32) -> i64
    requires { Inside m x y }
    ensures { result ≡ signed_of (2 ^ m) x y }
{
    let ids = size(m);
    let n = ids as i64;
    let half = (ids / 2) as i64;
    let d = (x as i64) - (y as i64);
    if d < -half {
        d + n
    } else {
        if half < d { d - n } else { d }
    }
}

// The size of the signed distance: the smaller Fall.
pub fn abs_dist(m: u32, x: u32, y: u32) -> u64
    requires { Inside m x y }
    ensures { result ≡ abs_dist_of (2 ^ m) x y }
{
    fall(m, x, y).min(fall(m, y, x))
}

// Twice the distance of a from k, and one more where k is reached by falling: the smaller, the nearer.
pub fn rank(m: u32, k: u32, a: u32) -> u64
    requires { Inside m k a }
    ensures { result ≡ rank_of (2 ^ m) k a }
{
    let f = fall(m, k, a);
    let g = fall(m, a, k);
    if f <= g { 2 * f } else { 2 * g + 1 }
}

// Is a nearer to k than b?
pub fn nearer(m: u32, k: u32, a: u32, b: u32) -> bool
    requires { Inside m k a × Inside m k b }
    ensures { result ≡ nearer_of (2 ^ m) k a b }
{
    rank(m, k, a) < rank(m, k, b)
}

fn left_cover(m: u32, i: u32, l: u32) -> u32
    requires { Inside m i l }
    ensures { result ≡ left_cover_of (2 ^ m) i l }
{
    (((i as u64) + fall(m, l, i) / 2) % size(m)) as u32
}

fn right_cover(m: u32, i: u32, r: u32) -> u32
    requires { Inside m i r }
    ensures { result ≡ right_cover_of (2 ^ m) i r }
{
    (((r as u64) + fall(m, i, r) / 2 + 1) % size(m)) as u32
}

// Does node i with left neighbour l and right neighbour r cover k?
pub fn covers(m: u32, i: u32, l: u32, r: u32, k: u32) -> bool
    requires { Inside m i l × Inside m r k }
    ensures { result ≡ covers_key (2 ^ m) i l r k }
{
    let from = left_cover(m, i, l);
    let to = right_cover(m, i, r);
    fall(m, from, k) <= fall(m, from, to)
}
