// The calls for other languages: numbers and bytes alone cross. 01's number stands in the low 32 bits of the result, the count of bytes
// written to the start of `out` in the high 32 bits; where the number is not 0, `out` is left as it was. The crate `face_c_c` exports them.
#![tactic(auto)]

ghost use Rattle.std.specs.Prelude.{◌≡◌, ◌≤◌};
ghost use Rattle.rules.specs.Numbers.{refusal_number};
ghost use Rattle.file.specs.Write.{count_of};
ghost use Rattle.face.specs.Calls.{loaded_of, begun_of, wrote_by, left_by, rest_by};
ghost use Rattle.listing.specs.List.{list_of, listed_of};
ghost use Rattle.face_c.specs.Words.{pack_of, wrote_in, letter_of, rest_word, asked_of, step_word, via_word, step_left};

use face::{Moved, Rest};
use file::Wrote;
use rules::{Action, Refusal};

// The action of a number, with its two words, if the number is an action's.
// Stays: the number is what C hands in, a `uint64_t` (include/).
#[tactic(auto, unfolding(crate::specs::Words::asked_of))]
pub fn action_of(k: u64, x: u64, y: u64) -> Option<Action>
    ensures { result ≡ asked_of k x y }
{
    match k {
        1 => Some(Action::Lookup(x as usize, y)),
        2 => Some(Action::Join(x as usize, y as usize)),
        3 => Some(Action::RequestLease(x as usize)),
        4 => Some(Action::LeaseExpired(x as usize, y as usize)),
        5 => Some(Action::GrantExpired(x as usize, y as usize)),
        6 => Some(Action::Take(x as usize)),
        7 => Some(Action::Deliver(x as usize)),
        8 => Some(Action::Forward(x as usize)),
        9 => Some(Action::NodeLeft(x as usize)),
        10 => Some(Action::SuspectFaulty(x as usize, y as usize)),
        11 => Some(Action::ProbeTimeOut(x as usize, y as usize)),
        12 => Some(Action::DeclareDead(x as usize, y as usize)),
        13 => Some(Action::LSRepair(x as usize)),
        14 => Some(Action::ResignNode(x as usize, y as usize)),
        15 => Some(Action::Recover(x as usize)),
        _ => None,
    }
}

// The number of a refusal as one word.
fn refused(why: Refusal) -> u64
    ensures { result ≡ refusal_number why }
{
    parts::answer_number(Err(why)) as u64
}

// The count of bytes written, or the refusal, as one word.
// Stays, here and in the two below: the word is C's (include/).
fn packed(w: Wrote) -> u64
    requires { count_of w ≤ 65536 }
    ensures { result ≡ pack_of w }
{
    match w {
        Ok(count) => (count as u64) * 4294967296,
        Err(why) => refused(why),
    }
}

// The same, and the letter of where the next hop came from in the highest byte.
fn lettered(m: Result<Moved, Refusal>) -> u64
    requires { count_of (wrote_in m) ≤ 65536 }
    ensures { result ≡ letter_of m }
{
    match m {
        Ok(moved) => {
            (parts::via_number(moved.via) as u64) * 72057594037927936
                + (moved.count as u64) * 4294967296
        }
        Err(why) => refused(why),
    }
}

// Whether a table is settled as one word.
fn rest_word(said: Rest) -> u64
    ensures { result ≡ rest_word said }
{
    match said {
        Ok(true) => 4294967296,
        Ok(false) => 0,
        Err(why) => refused(why),
    }
}

// How many bytes a step wrote, or its refusal.
fn written(m: Result<Moved, Refusal>) -> Wrote
    ensures { result ≡ wrote_in m }
{
    Ok(m?.count)
}

// Reads a table file and writes it back.
pub fn tarpudhriv_load(file: &[u8], out: &mut [u8]) -> u64
    ensures r { result ≡ pack_of (wrote_by (loaded_of file.now) out.old) }
    ensures left { out.new ≡ left_by (loaded_of file.now) out.old }
{
    packed(face_file::reload(file, out))
}

// Reads a table file, makes a step, and writes the table file after it. 4294967295 for a number that is no action's.
pub fn tarpudhriv_step(file: &[u8], action: u64, x: u64, y: u64, out: &mut [u8]) -> u64
    ensures r { result ≡ step_word (asked_of action x y) file.now out.old }
    ensures left { out.new ≡ step_left (asked_of action x y) file.now out.old }
{
    match action_of(action, x, y) {
        Some(a) => packed(written(face_file::step_file(file, a, out))),
        None => 4294967295,
    }
}

// The same step, and the letter of where the next hop came from in the highest byte of the result: `l`, `r`, or 0 where it routed nothing.
pub fn tarpudhriv_step_via(file: &[u8], action: u64, x: u64, y: u64, out: &mut [u8]) -> u64
    ensures r { result ≡ via_word (asked_of action x y) file.now out.old }
    ensures left { out.new ≡ step_left (asked_of action x y) file.now out.old }
{
    match action_of(action, x, y) {
        Some(a) => lettered(face_file::step_file(file, a, out)),
        None => 4294967295,
    }
}

// Makes a table of M, L, the set A as marks and the ids, and writes its file.
pub fn tarpudhriv_start(m: u64, l: u64, a: u64, ids: &[u32], out: &mut [u8]) -> u64
    ensures r { result ≡ pack_of (wrote_by (begun_of m l a ids.now) out.old) }
    ensures left { out.new ≡ left_by (begun_of m l a ids.now) out.old }
{
    packed(face_file::start_file(m, l, a, ids, out))
}

// Reads a table file, and tells whether its table is settled: 1 or 0 in the high 32 bits, where the number is 0.
pub fn tarpudhriv_settled(file: &[u8]) -> u64
    ensures { result ≡ rest_word (rest_by (loaded_of file.now)) }
{
    rest_word(face_file::settled_file(file))
}

// Writes the listing of a file, `refused N` and all. 11 for a buffer of fewer than 65,536 bytes, and no other number.
pub fn tarpudhriv_list(file: &[u8], out: &mut [u8]) -> u64
    ensures r { result ≡ pack_of (list_of file.now out.old) }
    ensures left { out.new ≡ listed_of file.now out.old }
{
    packed(file_list::list(file, out))
}
