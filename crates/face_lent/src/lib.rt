// The bench as a caller has it: a table by value, and the waiting messages in a list that the caller lends, with their count. Each function copies the
// list in, lets the core do the work on values, and copies the list back; its reply and what the list then holds are stated for every input.
#![tactic(auto)]

// Stay, in every call: the table, the list and its count as three parameters, which docs/CLAIMS names. The list is the caller's memory, of any length.

ghost use Rattle.std.specs.Prelude.{◌≡◌};
ghost use Rattle.face_lent.specs.Lent.{pool_of, blanks, places_of, taken_of, given_of, reply_of, lent_step, lent_start, lent_rest, lent_load, Handed, Filed};

use face::Rest;
use file::Wrote;
use rules::{Action, Message, Pool, Refusal, Via};
use table_type::{Stepped, Table};

// What the caller gets beside its list: the answer, the table and the count of waiting messages; and where the next hop came from, if a step routed a
// message to one.
// Stays: each call promises the table and the list after a refusal too (specs/Lent, Handed), so that they stand beside the answer.
#[derive(Clone, Copy)]
pub struct Reply {
    pub answer: Result<(), Refusal>,
    pub table: Table,
    pub count: usize,
    pub via: Via,
}

// How many places are copied in and out of a list of `len` places: all of 256, or none.
fn places(len: usize) -> usize
    ensures { result ≡ places_of len }
{
    if len == 256 { 256 } else { 0 }
}

// Blank places, with this count.
fn blank_pool(count: usize) -> Pool
    ensures { result ≡ pool_of count blanks }
{
    Pool {
        count,
        ..face_table::no_messages()
    }
}

// What the caller gets of what the core leaves.
// Stays a function: an impl of From would state the same clause as a ghost relation of the trait, which is no plainer.
fn replied(g: Stepped) -> Reply
    ensures { result ≡ reply_of g }
{
    let answer = g.answer;
    let table = g.table;
    let p = g.pool;
    let via = g.via;
    Reply {
        answer,
        table,
        count: p.count,
        via,
    }
}

// The pool by value that a lent list holds: its places where there are 256, and blank ones where not. A list of another length has a way of its own: on the
// other the compiler sees that every blank place is written over, and leaves the blanks out.
fn take_in(pool: &[Message], count: usize) -> Pool
    ensures { result ≡ pool_of count (taken_of pool.now) }
{
    let n = places(pool.len());
    if n == 0 {
        return blank_pool(count);
    }
    let mut x = blank_pool(count);
    for i in 0..n {
        x.places[i] = pool[i];
    }
    x
}

// A pool by value is written to a lent list of 256 places. Any other list is left as it is.
fn give_back(pool: &mut [Message], x: Pool)
    ensures { pool.new ≡ given_of pool.old x.places }
{
    let n = places(pool.len());
    for i in 0..n {
        pool[i] = x.places[i];
    }
}

// The action: 10 for an invalid table or a list without 256 places, then 1, then what the action says. A refusal changes nothing.
pub fn step(table: Table, pool: &mut [Message], count: usize, action: Action) -> Reply
    ensures { Handed (lent_step table pool.old count action) pool.old pool.new result }
{
    let len = pool.len();
    let x = take_in(pool, count);
    let g = table_step::step(table, x, len, action);
    give_back(pool, g.pool);
    replied(g)
}

// The start, with no messages: 10 for a list without 256 places, then 8 or 10 as the start says. A refusal changes nothing.
pub fn start(
    table: Table,
    pool: &mut [Message],
    count: usize,
    m: u32,
    l: u32,
    ids: &[u32],
    a: u64,
) -> Reply
    ensures { Handed (lent_start table pool.old count m l ids.now a) pool.old pool.new result }
{
    let len = pool.len();
    let x = take_in(pool, count);
    let g = face_table::start(table, x, len, m, l, ids, a);
    give_back(pool, g.pool);
    replied(g)
}

// Is the table settled? 10 for an invalid table or a list without 256 places.
pub fn settled(table: Table, pool: &[Message], count: usize) -> Rest
    ensures { result ≡ lent_rest table pool.now count }
{
    let len = pool.len();
    let x = take_in(pool, count);
    face_table::settled(table, x, len)
}

// Reads a table file into the table and the list: 7 to 9, then 10 for a list without 256 places, then 10 for records that break validity. A refusal
// changes nothing.
pub fn load(file: &[u8], table: Table, pool: &mut [Message], count: usize) -> Reply
    ensures { Handed (lent_load file.now table pool.old count) pool.old pool.new result }
{
    let len = pool.len();
    let x = take_in(pool, count);
    let g = file_read::load(file, table, x, len);
    give_back(pool, g.pool);
    replied(g)
}

// Writes the table file into the first bytes of a buffer, and tells how many. 10 for an invalid table or a list without 256 places, then 11 for a
// buffer that is too small. A refusal leaves the buffer as it is.
pub fn write(table: Table, pool: &[Message], count: usize, buf: &mut [u8]) -> Wrote
    ensures { Filed table pool.now count buf.old buf.new result }
{
    let len = pool.len();
    let x = take_in(pool, count);
    file_write::write(table, x, len, buf)
}
