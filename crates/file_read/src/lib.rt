// Reading a table file: its words, its records, its tests in the order of their numbers.
#![tactic(auto)]

ghost use Rattle.std.specs.Prelude.{◌≡◌, true, List, map, ◌++◌, ℕ, ◌+◌, ◌*◌, ◌<◌, ◌≤◌, length, drop};
ghost use Rattle.words.specs.Bytes.{decode, decode_all};
ghost use Rattle.file.specs.Format.{node_widths, message_widths, messages_at, status_of, node_from, message_from};
ghost use Rattle.file.specs.Load.{header_word, file_n, file_count, header_fits, offsets_fit, statuses_fit, file_table, part_pool, file_pool, load_of};
ghost use Rattle.file_read.specs.InnerRecords.{Fitting, records_of};

use rules::{Message, Node, Pool, Refusal, Status};
use table_type::{Stepped, Table};
use table_valid::Waiting;

// A file past the tests of its header and its offsets.
#[derive(Clone, Copy)]
pub struct Fit<'a> {
    pub bytes: &'a [u8],
    pub ghost fits: { Fitting bytes.now },
}

// The messages of a file: the first `count` records of the bytes, which may go on behind them.
// Stays a slice with a count: the lent bytes have room behind the messages, and are lent whole (crate image_pool).
#[derive(Clone, Copy)]
pub struct Part<'a> {
    pub bytes: &'a [u8],
    pub count: usize,
    pub ghost few: { count ≤ 256 },
    pub ghost room: { 56 * count ≤ length bytes.now },
}

// Word i of the header, from 0.
// Stays a clause, here and in the three tests below: that there are 32 bytes. A type for it would be opened at every read of a record, which takes bytes.
pub fn word(bs: &[u8], i: usize) -> u32
    requires { (i < 8) × (32 ≤ length bs.now) }
    ensures { result ≡ header_word bs.now i }
{
    words::read::<u32>(bs, 4 * i)
}

// The status of a number from 0 to 3, and dead for any other. Stays a function: `From` wants one of its two types in this crate.
fn status_of(x: u32) -> Status
    ensures { result ≡ status_of x }
{
    match x {
        1 => Status::Wait,
        2 => Status::Ok,
        3 => Status::Ready,
        _ => Status::Dead,
    }
}

// A record of the file: a row of numbers, each of its width.
// Stays beside the writer's trait of that name (crate file_write): the two share the widths alone, and the crate below both (`file`) is without code.
trait Record: Copy {
    // How many bytes it takes.
    const SIZE: usize;

    ghost SIZE: { ℕ };

    ghost widths: { List ℕ };

    ghost from: { List ℕ → Self };

    // The record that begins at a place.
    fn read(bs: &[u8], at: usize) -> Self
        requires { at + SIZE ≤ length bs.now }
        ensures { result ≡ from (decode widths (drop at bs.now)) };
}

impl Record for Node {
    const SIZE: usize = 64;

    ghost SIZE = { 64 };

    ghost widths = { node_widths };

    ghost from = { node_from };

    fn read(bs: &[u8], at: usize) -> Node {
        Node {
            id: words::read(bs, at),
            status: status_of(words::read(bs, at + 4)),
            left: words::read(bs, at + 8),
            right: words::read(bs, at + 16),
            probing: words::read(bs, at + 24),
            failed: words::read(bs, at + 32),
            routing: words::read(bs, at + 40),
            lease: words::read(bs, at + 48),
            grant: words::read(bs, at + 56),
        }
    }
}

impl Record for Message {
    const SIZE: usize = 56;

    ghost SIZE = { 56 };

    ghost widths = { message_widths };

    ghost from = { message_from };

    fn read(part: &[u8], at: usize) -> Message {
        Message {
            kind: words::read(part, at),
            dest: words::read(part, at + 4),
            word: words::read(part, at + 8),
            flag: words::read(part, at + 12),
            owner: words::read(part, at + 16),
            hops: words::read(part, at + 20),
            routing: words::read(part, at + 24),
            left: words::read(part, at + 32),
            right: words::read(part, at + 40),
            failed: words::read(part, at + 48),
        }
    }
}

// The node whose record begins at a place.
pub fn read_node(bs: &[u8], at: usize) -> Node
    requires { at + 64 ≤ length bs.now }
    ensures { result ≡ node_from (decode node_widths (drop at bs.now)) }
{
    Node::read(bs, at)
}

// The message whose record begins at a place.
pub fn read_message(part: &[u8], at: usize) -> Message
    requires { at + 56 ≤ length part.now }
    ensures { result ≡ message_from (decode message_widths (drop at part.now)) }
{
    Message::read(part, at)
}

// Reads the first n records of a part into the first n places; the others stay as they are.
fn fill<R: Record>(places: &mut [R], part: &[u8], n: usize)
    requires { (n ≤ length places.old) × (R.SIZE * n ≤ length part.now) }
    ensures { places.new ≡ map R.from (decode_all R.widths R.SIZE n part.now) ++ drop n places.old }
{
    for s in 0..n {
        places[s] = R::read(part, R::SIZE * s);
    }
}

// Are M, L, n and the message count in range, and the last word 0?
pub fn header_fits(bs: &[u8]) -> bool
    requires { 32 ≤ length bs.now }
    ensures { result ≡ header_fits bs.now }
{
    let m = word(bs, 0);
    let l = word(bs, 1);
    let n = word(bs, 2);
    let count = word(bs, 3);
    let last = word(bs, 7);
    (2 <= m)
        & (m <= 32)
        & ((1 <= l) & (l <= 8) & ((1 <= n) & (n <= 64) & ((count <= 256) & (last == 0))))
}

// Do the offsets, the total and the real length agree with the counts?
pub fn offsets_fit(bs: &[u8]) -> bool
    requires { 32 ≤ length bs.now }
    ensures { result ≡ offsets_fit bs.now }
{
    let n = word(bs, 2) as usize;
    let count = word(bs, 3) as usize;
    let nodes = word(bs, 4) as usize;
    let messages = word(bs, 5) as usize;
    let total = word(bs, 6) as usize;
    let long = 32 + 64 * n + 56 * count;
    (nodes == 32) & ((messages == 32 + 64 * n) & ((total == long) & (bs.len() == long)))
}

// Is every status one of 0 to 3?
pub fn statuses_fit(bs: &[u8]) -> bool
    requires { (32 ≤ length bs.now) × (offsets_fit bs.now ≡ true) }
    ensures { result ≡ statuses_fit bs.now }
{
    let n = word(bs, 2) as usize;
    for s in 0..n {
        if 3 < words::read::<u32>(bs, 32 + 64 * s + 4) {
            return false;
        }
    }
    true
}

// The table of the file: its nodes in the slots 0 to n - 1, and no node in the others.
#[tactic(auto, using(crate::proofs::Laws::fits_told))]
fn read_table(file: Fit) -> Table
    ensures { result ≡ file_table file.entry.bytes.now }
{
    let m = word(file.bytes, 0);
    let l = word(file.bytes, 1);
    let n = word(file.bytes, 2) as usize;
    let mut nodes = [table_type::no_node(); 64];
    fill(&mut nodes, &file.bytes[32..], n);
    Table { m, l, n, nodes }
}

// The messages of the file: the part that begins at the message offset.
#[tactic(auto, using(crate::proofs::Laws::fits_told))]
pub fn messages<'a>(file: Fit<'a>) -> Part<'a>
    ensures count { result.count ≡ file_count file.entry.bytes.now }
    ensures bytes { result.bytes.now ≡ drop (messages_at (file_n file.entry.bytes.now)) file.entry.bytes.now }
    ensures pool { part_pool result.count result.bytes.now ≡ file_pool file.entry.bytes.now }
{
    let count = word(file.bytes, 3) as usize;
    let at = word(file.bytes, 5) as usize;
    let bytes = &file.bytes[at..];
    Part { bytes, count }
}

// Reads the messages of a part.
fn read_pool(part: Part) -> Pool
    ensures { result ≡ part_pool part.entry.count part.entry.bytes.now }
{
    let mut places = [parts::blank_message(); 256];
    fill(&mut places, part.bytes, part.count);
    let count = part.count;
    Pool { count, places }
}

// The messages of the file, by value. 01 names this form: the middle part of the file passed to the message reader (docs/DECISIONS.md, "01's code places").
fn read_messages(file: Fit) -> Pool
    ensures { result ≡ file_pool file.entry.bytes.now }
{
    let part = messages(file);
    read_pool(part)
}

impl Waiting for Part<'_> {
    ghost pool = { λ p. part_pool p.count p.bytes.now };

    fn count(&self) -> usize {
        self.count
    }

    fn at(&self, q: usize) -> Message {
        read_message(self.bytes, 56 * q)
    }
}

// What the records leave: 10 if a status is none of 0 to 3 or validity is broken, else the table and the messages of the file.
fn load_records(file: Fit, t: Table, p: Pool) -> Stepped
    ensures { result ≡ records_of file.entry.bytes.now t p }
{
    if !statuses_fit(file.bytes) {
        return table_parts::refused(t, p, Refusal::Invalid);
    }
    let u = read_table(file);
    let q = read_messages(file);
    if !table_valid::is_valid(u, q) {
        return table_parts::refused(t, p, Refusal::Invalid);
    }
    table_parts::done(u, q)
}

// Reads a table file. 7 for a file shorter than 32 bytes, 8 for its header, 9 for its offsets, its total or its length, 10 for a list whose
// length is not 256, then 10 for its records; a refusal leaves the table t and the pool p as they are.
// `len` is how many places a caller's list has.
pub fn load(file: &[u8], t: Table, p: Pool, len: usize) -> Stepped
    ensures { result ≡ load_of file.now t p len }
{
    if file.len() < 32 {
        return table_parts::refused(t, p, Refusal::Short);
    }
    if !header_fits(file) {
        return table_parts::refused(t, p, Refusal::Header);
    }
    if !offsets_fit(file) {
        return table_parts::refused(t, p, Refusal::Offsets);
    }
    if len != 256 {
        return table_parts::refused(t, p, Refusal::Invalid);
    }
    load_records(Fit { bytes: file }, t, p)
}
