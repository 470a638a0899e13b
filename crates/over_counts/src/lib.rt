// How many messages wait for each node, kept beside the pool: the start, the load, the step and the write of tables with such counts, whether one is
// settled, and what a display asks of them. For any input.
#![tactic(auto)]

// Stays: counts are an array of 64, as the nodes of a table, since a library holds no heap; `len` is the length of the list of messages, the caller's, of any
// number, and 10 is said of one that is not 256 (docs/CLAIMS.md).

ghost use Rattle.std.specs.Prelude.{◌≡◌, ◌≤◌, ◌<◌, ltb, true, Ok, Err};
ghost use Rattle.marks.specs.Marks.{gather};
ghost use Rattle.counts.specs.Counts.{counts_after, after_by, refused_with, count_at, first_for};
ghost use Rattle.counts.specs.Counts.{is_sound_counted, has_of, first_of, polled_of};
ghost use Rattle.over_counts.specs.Contract.{CountsOf, Agree, IsSound, Step, Load, Start, Write, Settled, HasMessage, FirstMessage, Poll};
ghost use Rattle.over_counts.specs.Contract.{Number};
ghost use Rattle.over_counts.specs.InnerWalk.{waiting_in, one_more};

use counts::{After, Counted, First, Has, Polled};
use face::Rest;
use file::Wrote;
use rules::{Action, Message, Pool, Refusal, Via};
use table_type::Stepped;

// How many messages wait in a pool of any content: as many as it counts, and all 256 places where it counts more.
#[tactic(auto, unfolding(crate::specs::InnerWalk::waiting_in))]
fn waiting_in(count: usize) -> usize
    ensures { result ≡ waiting_in count }
{
    count.min(256)
}

// One more for a slot; nothing for what is no slot.
fn count_one(counts: &mut [u32; 64], slot: usize)
    requires { slot < 64 → count_at counts.old slot < 256 }
    ensures { counts.new ≡ one_more counts.old slot }
{
    if slot < 64 {
        counts[slot] = counts[slot] + 1;
    }
}

// For each slot how many messages wait for its node.
pub fn counts_of(p: Pool) -> [u32; 64]
    ensures { CountsOf p result }
{
    let n = waiting_in(p.count);
    let mut counts = [0u32; 64];
    for at in 0..n {
        let m = p.places[at];
        count_one(&mut counts, m.dest as usize);
    }
    counts
}

// Do the counts agree with the pool?
pub fn agree(counts: [u32; 64], p: Pool) -> bool
    ensures { Agree counts p result }
{
    counts == counts_of(p)
}

// Is the table valid, its list of messages one of 256 places, and do its counts agree with its pool?
pub fn is_sound(x: Counted, len: usize) -> bool
    ensures { IsSound x len result }
{
    let t = x.table;
    let p = x.pool;
    let counts = x.counts;
    if len != 256 {
        return false;
    }
    if !table_valid::is_valid(t, p) {
        return false;
    }
    agree(counts, p)
}

// The counts after a call that leaves this answer and this pool.
fn counts_after(counts: [u32; 64], answer: Result<(), Refusal>, p: Pool) -> [u32; 64]
    ensures { result ≡ counts_after counts answer p }
{
    match answer {
        Ok(()) => counts_of(p),
        Err(_) => counts,
    }
}

// What the step, the load or the start without counts leaves, with the counts after it.
fn with_counts(counts: [u32; 64], r: Stepped) -> After
    ensures { result ≡ after_by counts r }
{
    let answer = r.answer;
    let table = r.table;
    let pool = r.pool;
    let via = r.via;
    let counts = counts_after(counts, answer, pool);
    let counted = Counted {
        table,
        pool,
        counts,
    };
    After {
        answer,
        counted,
        via,
    }
}

// A refusal leaves everything as it is.
fn refused(x: Counted, why: Refusal) -> After
    ensures { result ≡ refused_with x why }
{
    After {
        answer: Err(why),
        counted: x,
        via: Via::Unrouted,
    }
}

// The step: 10 before anything else for counts that disagree with the pool, then as without counts. A refusal changes nothing.
pub fn step(x: Counted, len: usize, a: Action) -> After
    ensures { Step x len a result }
{
    let t = x.table;
    let p = x.pool;
    let counts = x.counts;
    if !agree(counts, p) {
        return refused(x, Refusal::Invalid);
    }
    with_counts(counts, table_step::step(t, p, len, a))
}

// Reads a table file and works its counts out. What was there before is not looked at. A refusal changes nothing.
pub fn load(file: &[u8], x: Counted, len: usize) -> After
    ensures { Load file.now x len result }
{
    let t = x.table;
    let p = x.pool;
    let counts = x.counts;
    with_counts(counts, file_read::load(file, t, p, len))
}

// The start, for which nothing waits. What was there before is not looked at. A refusal changes nothing.
pub fn start(x: Counted, len: usize, m: u32, l: u32, ids: &[u32], a: u64) -> After
    ensures { Start x len m l ids.now a result }
{
    let t = x.table;
    let p = x.pool;
    let counts = x.counts;
    with_counts(counts, face_table::start(t, p, len, m, l, ids, a))
}

// Writes the table file: 10 before anything else for counts that disagree with the pool, then as without counts. A refusal leaves the
// buffer as it is.
pub fn write(x: Counted, len: usize, buf: &mut [u8]) -> Wrote
    ensures { Write x len buf.old buf.new result }
{
    let t = x.table;
    let p = x.pool;
    let counts = x.counts;
    if !agree(counts, p) {
        return Err(Refusal::Invalid);
    }
    file_write::write(t, p, len, buf)
}

// Is the table settled? 10 before anything else for counts that disagree with the pool, then as without counts.
pub fn settled(x: Counted, len: usize) -> Rest
    ensures { Settled x len result }
{
    let t = x.table;
    let p = x.pool;
    let counts = x.counts;
    if !agree(counts, p) {
        return Err(Refusal::Invalid);
    }
    face_table::settled(t, p, len)
}

// The place of the first message for node i. It stops at the first found.
fn first_for(waiting: &[Message], i: u32) -> Option<usize>
    ensures { result ≡ first_for waiting.now i }
{
    waiting.iter().position(|m| m.dest == i)
}

// 10 for an invalid table, a list without 256 places or counts that disagree with the pool.
fn sound(x: Counted, len: usize) -> Result<(), Refusal>
    ensures sound { result ≡ Ok tt → is_sound_counted x len ≡ true }
    ensures refused { (why : Refusal) → result ≡ Err why → polled_of x len ≡ Err why }
{
    if is_sound(x, len) {
        Ok(())
    } else {
        Err(Refusal::Invalid)
    }
}

// The same, then 1 for a slot out of range.
fn sound_at(x: Counted, len: usize, i: usize) -> Result<(), Refusal>
    ensures sound { result ≡ Ok tt → (is_sound_counted x len ≡ true) × (i < x.table.n) }
    ensures refused { (why : Refusal) → result ≡ Err why → (has_of x len i ≡ Err why) × (first_of x len i ≡ Err why) }
{
    if !is_sound(x, len) {
        return Err(Refusal::Invalid);
    }
    if x.table.n <= i {
        return Err(Refusal::OutOfRange);
    }
    Ok(())
}

// Does node i have a message? It is answered from the count. 10 for an invalid table, a list without 256 places or counts that disagree with
// the pool, then 1 for a slot out of range.
// Here and below the counts are taken out of x before an index goes into them: else x is kept whole in memory, and copied whole.
pub fn has_message(x: Counted, len: usize, i: usize) -> Has
    ensures { HasMessage x len i result }
{
    sound_at(x, len, i)?;
    let counts = x.counts;
    Ok(0 < counts[i])
}

// Where is the first message for node i? It does not look where the count is 0. The numbers are those of `has_message`.
pub fn first_message(x: Counted, len: usize, i: usize) -> First
    ensures { FirstMessage x len i result }
{
    sound_at(x, len, i)?;
    let counts = x.counts;
    if counts[i] == 0 {
        return Ok(None);
    }
    let p = x.pool;
    Ok(first_for(&p.places[..p.count], i as u32))
}

// The nodes below n whose count is not 0.
// Stays a clause: n ≤ 64. It bounds one index, and a type of such numbers would be made for it alone.
fn nodes_counted(counts: &[u32; 64], n: usize) -> u64
    requires { n ≤ 64 }
    ensures { result ≡ gather n (λ i. ltb 0 (count_at counts.now i)) }
{
    let mut set: u64 = 0;
    for i in 0..n {
        if 0 < counts[i] {
            set = marks::added(set, i);
        }
    }
    set
}

// Which nodes have a message? Asked once for all of them, and answered from the counts; 10 as for `has_message`.
pub fn poll(x: Counted, len: usize) -> Polled
    ensures { Poll x len result }
{
    sound(x, len)?;
    let counts = x.counts;
    Ok(nodes_counted(&counts, x.table.n))
}

// 01's number of an answer, as of `has_message`, `first_message` and `poll`: 0 where it was looked at.
// Stays: no impl of From can stand for it, since a Result and u32 are both of other crates.
pub fn number<T: Copy>(r: Result<T, Refusal>) -> u32
    ensures { Number r result }
{
    match r {
        Ok(_) => 0,
        Err(why) => parts::answer_number(Err(why)),
    }
}
