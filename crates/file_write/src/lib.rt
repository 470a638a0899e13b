// Writing a table file into a buffer: front to back, each writer giving the place behind what it wrote.
#![tactic(auto)]

ghost use Rattle.std.specs.Prelude.{◌≡◌, List, map, ◌++◌, ℕ, ◌+◌, ◌*◌, ◌<◌, ◌≤◌, length};
ghost use Rattle.words.specs.Bytes.{bytes_of, encode, encode_all};
ghost use Rattle.file.specs.Format.{header_widths, node_widths, message_widths, header_row, node_row, message_row, total_of, file_of};
ghost use Rattle.file.specs.Held.{Held};
ghost use Rattle.file.specs.Write.{wrote_of, written_of};
ghost use Rattle.words.specs.InnerPut.{Put};

use file::Wrote;
use rules::{Message, Node, Pool, Refusal};
use table_type::Table;
use words::Word;

// Writes two words.
fn pair<W: Word>(b: &mut [u8], at: usize, x: W, y: W) -> usize
    requires { at + 2 * W.SIZE ≤ length b.old }
    ensures { Put (2 * W.SIZE) b.old at (bytes_of W.SIZE (W.number x) ++ bytes_of W.SIZE (W.number y)) result b.new }
{
    let mid = words::write(b, at, x);
    words::write(b, mid, y)
}

// A record of the file: a row of numbers, each of its width. Stays beside the reader's, as file_read::Record.
trait Record: Copy {
    // How many bytes it takes.
    ghost size: { ℕ };

    ghost widths: { List ℕ };

    ghost numbers: { Self → List ℕ };

    // Writes the record.
    fn put(self, b: &mut [u8], at: usize) -> usize
        requires { at + size ≤ length b.old }
        ensures { Put size b.old at (encode widths (numbers self)) result b.new };
}

impl Record for Node {
    ghost size = { 64 };

    ghost widths = { node_widths };

    ghost numbers = { node_row };

    fn put(self, b: &mut [u8], at: usize) -> usize {
        let st = self.status;
        let number = parts::status_number(st);
        let a1 = pair(b, at, self.id, number);
        let a2 = pair(b, a1, self.left, self.right);
        let a3 = pair(b, a2, self.probing, self.failed);
        let a4 = pair(b, a3, self.routing, self.lease);
        words::write(b, a4, self.grant)
    }
}

impl Record for Message {
    ghost size = { 56 };

    ghost widths = { message_widths };

    ghost numbers = { message_row };

    fn put(self, b: &mut [u8], at: usize) -> usize {
        let a1 = pair(b, at, self.kind, self.dest);
        let a2 = pair(b, a1, self.word, self.flag);
        let a3 = pair(b, a2, self.owner, self.hops);
        let a4 = pair(b, a3, self.routing, self.left);
        pair(b, a4, self.right, self.failed)
    }
}

// Writes the record of a message.
pub fn put_message(b: &mut [u8], at: usize, m: Message) -> usize
    requires { at + 56 ≤ length b.old }
    ensures { Put 56 b.old at (encode message_widths (message_row m)) result b.new }
{
    m.put(b, at)
}

// Writes records, one after the other.
fn put_all<R: Record>(b: &mut [u8], at: usize, records: &[R]) -> usize
    requires { at + R.size * length records.now ≤ length b.old }
    ensures { Put (R.size * length records.now) b.old at (encode_all R.widths (map R.numbers records.now)) result b.new }
{
    let mut to = at;
    for r in records {
        to = r.put(b, to);
    }
    to
}

// Writes the header.
// Stay clauses, here and in the two below: n ≤ 64 and count ≤ 256. They bound one sum, and a type of the two counts would be made for it alone.
fn put_header(b: &mut [u8], m: u32, l: u32, n: u32, count: u32) -> usize
    requires { (n ≤ 64) × (count ≤ 256) × (32 ≤ length b.old) }
    ensures { Put 32 b.old 0 (encode header_widths (header_row m l n count)) result b.new }
{
    let a1 = pair(b, 0, m, l);
    let a2 = pair(b, a1, n, count);
    let a3 = pair(b, a2, 32, 32 + 64 * n);
    pair(b, a3, 32 + 64 * n + 56 * count, 0)
}

// Writes the file of a table and of the messages that wait.
fn put_file(b: &mut [u8], t: Table, p: Pool) -> usize
    requires { (t.n ≤ 64) × (p.count ≤ 256) × (total_of t.n p.count ≤ length b.old) }
    ensures { Put (total_of t.n p.count) b.old 0 (file_of t p) result b.new }
{
    let nodes = put_header(b, t.m, t.l, t.n as u32, p.count as u32);
    let messages = put_all(b, nodes, &t.nodes[..t.n]);
    put_all(b, messages, &p.places[..p.count])
}

// The number of bytes of a file.
fn total_of(n: usize, count: usize) -> usize
    requires { (n ≤ 64) × (count ≤ 256) }
    ensures { result ≡ total_of n count }
{
    32 + 64 * n + 56 * count
}

// Writes the file of the table and of the messages that wait into the first bytes of the buffer, and tells how many. 10 for an invalid
// table or a list whose length is not 256, then 11 for a buffer that is too small; a refused write leaves the buffer as it is.
// `len` is how many places a caller's list has, and no length of the buffer.
pub fn write(t: Table, p: Pool, len: usize, buf: &mut [u8]) -> Wrote
    ensures { (result ≡ wrote_of t p len buf.old) × (buf.new ≡ written_of t p len buf.old) }
{
    if len != 256 {
        return Err(Refusal::Invalid);
    }
    if !table_valid::is_valid(t, p) {
        return Err(Refusal::Invalid);
    }
    if buf.len() < total_of(t.n, p.count) {
        return Err(Refusal::NoRoom);
    }
    Ok(put_file(buf, t, p))
}

// It does nothing, and says that every table and pool is held as the theorems of the table file ask.
fn held(t: Table, p: Pool)
    ensures { Held t p }
{}
