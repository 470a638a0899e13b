// For measuring: one call again and again, on what a table file holds; the sum of what the rounds answer. Where the compiler could make one round of
// many, each first turns the lowest bit of the last node's grant and of the last place's word. A file of 64 nodes stays valid under that if its place
// 255, where it is taken, has a lookup.
#![tactic(auto)]

ghost use Rattle.std.specs.Prelude.{◌≡◌};
ghost use Rattle.face_lent.specs.Lent.{lent_step, reply_of};

use face_lent::Reply;
use file::Wrote;
use rules::{Action, Pool, Refusal};
use table_type::{Stepped, Table};

// The action of a number, with its two words; a Take where the number is no action's.
// Stays: the number is C's, as in face_c.
fn action_of(kind: u64, x: u64, y: u64) -> Action {
    face_c::action_of(kind, x, y).unwrap_or(Action::Take(x as usize))
}

// Turns the lowest bit of the last node's grant and of the last place's word.
fn turn(s: &mut Stepped) {
    s.table.nodes[63].grant ^= 1;
    s.pool.places[255].word ^= 1;
}

// The sum of what the rounds answer, modulo 2^32.
fn summed<F: FnMut() -> u32>(times: u32, mut round: F) -> u64
    requires { F.IsAlwaysCallable round }
{
    let mut sum: u32 = 0;
    for _ in 0..times {
        sum = sum.wrapping_add(round());
    }
    u64::from(sum)
}

// What a round answers: the number of its answer and how many messages it leaves.
fn left(answer: Result<(), Refusal>, count: usize) -> u32 {
    parts::answer_number(answer) % 16 + (count % 65536) as u32
}

// Stays: a loop of its own. Over a closure each step by value copies table and pool once more, 18,472 bytes, which its figure would count (docs/BENCHMARKS.md).
fn steps(s: Stepped, a: Action, times: u32) -> u64 {
    let t = s.table;
    let p = s.pool;
    let mut sum: u32 = 0;
    for _ in 0..times {
        let r = table_step::step(t, p, 256, a);
        let q = r.pool;
        sum = sum.wrapping_add(left(r.answer, q.count));
    }
    u64::from(sum)
}

// Steps by value: the number answered and the messages left.
#[unsafe(no_mangle)]
pub extern "C" fn tarpudhriv_steps(file: &[u8], kind: u64, x: u64, y: u64, times: u32) -> u64 {
    steps(face_file::loaded(file), action_of(kind, x, y), times)
}

// A step over a list of its own, lent for the call.
fn lent_step(t: Table, p: Pool, a: Action) -> Reply
    ensures { result ≡ reply_of (lent_step t p.places p.count a) }
{
    let mut places = p.places;
    face_lent::step(t, &mut places, p.count, a)
}

// Steps over a lent list, which is made anew for each: the number answered and the messages left.
#[unsafe(no_mangle)]
pub extern "C" fn tarpudhriv_lent_steps(file: &[u8], kind: u64, x: u64, y: u64, times: u32) -> u64 {
    let s = face_file::loaded(file);
    let a = action_of(kind, x, y);
    summed(times, || {
        let r = lent_step(s.table, s.pool, a);
        left(r.answer, r.count)
    })
}

// Validity: 1 for a valid table.
#[unsafe(no_mangle)]
pub extern "C" fn tarpudhriv_validity(file: &[u8], times: u32) -> u64 {
    let mut s = face_file::loaded(file);
    summed(times, || {
        turn(&mut s);
        u32::from(table_valid::is_valid(s.table, s.pool))
    })
}

// Loads: the number answered and the messages loaded.
#[unsafe(no_mangle)]
pub extern "C" fn tarpudhriv_loads(file: &[u8], times: u32) -> u64 {
    summed(times, || {
        let r = face_file::loaded(file);
        left(r.answer, r.pool.count)
    })
}

// What a round that writes answers: its number, or how many bytes it wrote.
fn told(w: Wrote) -> u32 {
    match w {
        Ok(count) => (count % 65536) as u32,
        Err(why) => parts::answer_number(Err(why)),
    }
}

// Writes: the number answered and the bytes written.
#[unsafe(no_mangle)]
pub extern "C" fn tarpudhriv_writes(file: &[u8], out: &mut [u8], times: u32) -> u64 {
    let mut s = face_file::loaded(file);
    summed(times, || {
        turn(&mut s);
        told(file_write::write(s.table, s.pool, 256, out))
    })
}

// Listings: the number answered and the bytes written.
#[unsafe(no_mangle)]
pub extern "C" fn tarpudhriv_lists(file: &[u8], out: &mut [u8], times: u32) -> u64 {
    summed(times, || told(file_list::list(file, out)))
}
