// Distances, nearer and covers for callers outside. Total: None, which is out of range, unless M is from 2 to 32 and every id and key is below 2^M.
#![tactic(auto)]

ghost use Rattle.std.specs.Prelude.{◌≡◌, [], ◌^◌, ltb};
ghost use Rattle.face_dist.specs.Dist.{all_inside, ask_fall, ask_signed, ask_abs_dist, ask_nearer, ask_covers, asked_number};

// Is M from 2 to 32?
fn wide(m: u32) -> bool
    ensures { result ≡ all_inside m [] }
{
    (2 <= m) & (m <= 32)
}

// Is x below 2^M? From M = 32 on, every x is.
fn below(m: u32, x: u32) -> bool
    ensures { result ≡ ltb x (2 ^ m) }
{
    if m < 32 { x < 1u32 << m } else { true }
}

// Is M from 2 to 32, and is each id and key below 2^M?
fn all_inside(m: u32, xs: &[u32]) -> bool
    ensures { result ≡ all_inside m xs.now }
{
    xs.iter().all(|&x| below(m, x)) & wide(m)
}

// Stays an `if`, here and in the four below: by `then` each closure would have to state again what crate dist asks of its caller.
// Fall(x, y).
pub fn fall(m: u32, x: u32, y: u32) -> Option<i64>
    ensures { result ≡ ask_fall m x y }
{
    if all_inside(m, &[x, y]) {
        Some(dist::fall(m, x, y) as i64)
    } else {
        None
    }
}

// The signed distance of x and y.
pub fn signed_distance(m: u32, x: u32, y: u32) -> Option<i64>
    ensures { result ≡ ask_signed m x y }
{
    if all_inside(m, &[x, y]) {
        Some(dist::signed(m, x, y))
    } else {
        None
    }
}

// AbsDist of x and y.
pub fn abs_dist(m: u32, x: u32, y: u32) -> Option<i64>
    ensures { result ≡ ask_abs_dist m x y }
{
    if all_inside(m, &[x, y]) {
        Some(dist::abs_dist(m, x, y) as i64)
    } else {
        None
    }
}

// Is a nearer to key k than b?
pub fn is_nearer(m: u32, k: u32, a: u32, b: u32) -> Option<bool>
    ensures { result ≡ ask_nearer m k a b }
{
    if all_inside(m, &[k, a, b]) {
        Some(dist::nearer(m, k, a, b))
    } else {
        None
    }
}

// Does node i with left neighbour l and right neighbour r cover key k?
pub fn does_cover(m: u32, i: u32, l: u32, r: u32, k: u32) -> Option<bool>
    ensures { result ≡ ask_covers m i l r k }
{
    if all_inside(m, &[i, l, r, k]) {
        Some(dist::covers(m, i, l, r, k))
    } else {
        None
    }
}

// 01's number of an answer: 0, or 1 for what is out of range.
// Stays: no impl of From can stand for it, since an Option and u32 are both of other crates.
pub fn number<T: Copy>(a: Option<T>) -> u32
    ensures { result ≡ asked_number a }
{
    match a {
        Some(_) => 0,
        None => 1,
    }
}
