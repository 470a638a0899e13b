// The listing of a table file: each waiting lookup followed to its end, and printed as a line.
#![tactic(auto)]

ghost use Rattle.std.specs.Prelude.{◌≡◌, true, [], ◌∷◌, ◌++◌, ◌+◌, ◌*◌, ◌^◌, ◌<◌, ◌≤◌, length};
ghost use Rattle.rules.specs.InnerAsks.{Below};
ghost use Rattle.rules.specs.Hop.{via_of};
ghost use Rattle.rules.specs.Numbers.{refusal_number, via_number};
ghost use Rattle.rules.specs.Pool.{waiting};
ghost use Rattle.table.specs.Valid.{valid_of};
ghost use Rattle.text.specs.Decimal.{decimal};
ghost use Rattle.text.specs.InnerPrints.{Prints};
ghost use Rattle.listing.specs.Print.{headline, refused_word, via_text, hops_text, lines_of, print_of};
ghost use Rattle.file_list.specs.InnerFollow.{turn_of};
ghost use Rattle.file_list.specs.InnerLine.{end_in, line_in};
ghost use Rattle.listing.specs.List.{list_of, listed_of};
ghost use Rattle.file_list.specs.InnerLoaded.{Loaded};

use file::Wrote;
use rules::{Hop, Message, Node, Pool, Refusal, Roster, Status};
use table_type::{Stepped, Table};

// What a node does with a lookup that it takes: delivers it, stops it (it is not ready, or there is no legal route), or routes it to
// another slot.
#[derive(Clone, Copy)]
pub enum Turn {
    Delivers,
    Stops,
    Goes(usize),
}

// What node i does with a lookup of k.
#[tactic(auto, using(rules::proofs::Statuses::statuses), unfolding(crate::specs::InnerFollow::turn_of))]
fn turn_at(r: &Roster, dead: u64, i: usize, v: Node, k: u32) -> Turn
    requires { (i < 64) × (k < 2 ^ r.now.ring.m) }
    ensures { result ≡ turn_of r.now.ring r.now.ids dead i v k }
{
    if v.status != Status::Ready {
        return Turn::Stops;
    }
    if leaf::covers(r, i, parts::sides_of(v), k) {
        return Turn::Delivers;
    }
    let next = hop::next_hop(r, dead, i, v, k);
    match next {
        Hop::To(h) => Turn::Goes(h),
        Hop::NoRoute => Turn::Stops,
    }
}

// The letter of the routing from node i to h.
fn letter_of(i: usize, v: Node, h: usize) -> u8
    ensures { result ≡ via_number (via_of i v h) }
{
    parts::via_number(hop::via_of(i, v, h)) as u8
}

// Writes the id of the slot that delivered a lookup, or `-`.
fn put_end(b: &mut [u8], at: usize, ids: &[u32; 64], end: Option<usize>) -> usize
    requires { Below end 64 × (at + length (end_in ids.now end) ≤ length b.old) }
    ensures { Prints b.old at (end_in ids.now end) result b.new }
{
    match end {
        Some(e) => {
            let id = ids[e];
            text::put_number(b, at, id)
        }
        None => text::put_byte(b, at, b'-'),
    }
}

// Writes the letters of a lookup's routings, or `-` where there are none.
fn put_via(b: &mut [u8], at: usize, letters: &[u8]) -> usize
    requires { at + length (via_text letters.now) ≤ length b.old }
    ensures { Prints b.old at (via_text letters.now) result b.new }
{
    if letters.is_empty() {
        return text::put_byte(b, at, b'-');
    }
    text::put_text(b, at, letters)
}

// Writes how often a lookup was routed, and the letters.
fn put_hops(b: &mut [u8], at: usize, letters: &[u8]) -> usize
    requires { (length letters.now < 64) × (at + length (hops_text letters.now) ≤ length b.old) }
    ensures { Prints b.old at (hops_text letters.now) result b.new }
{
    let a1 = text::put_field(b, at, letters.len() as u32, b' ');
    let a2 = put_via(b, a1, letters);
    text::put_byte(b, a2, b'\n')
}

// Writes the line of a lookup that ended so, routed with these letters.
fn put_line(
    b: &mut [u8],
    at: usize,
    ids: &[u32; 64],
    m: Message,
    end: Option<usize>,
    letters: &[u8],
) -> usize
    requires { (m.dest < 64) × Below end 64 × (length letters.now < 64) × (at + length (line_in ids.now m end letters.now) ≤ length b.old) }
    ensures { Prints b.old at (line_in ids.now m end letters.now) result b.new }
{
    let i = m.dest as usize;
    let own = ids[i];
    let a1 = text::put_field(b, at, m.word, b' ');
    let a2 = text::put_field(b, a1, own, b' ');
    let a3 = put_end(b, a2, ids, end);
    let a4 = text::put_byte(b, a3, b' ');
    put_hops(b, a4, letters)
}

// Follows each waiting lookup, in pool order, as the only message of the table, with no other step, and writes its line: by the rules alone, with no
// pool and no test of validity at each hop. The table is looked at here alone, since a call for each lookup would copy it.
fn follow(b: &mut [u8], start: usize, t: Table, p: Pool) -> usize
    requires { (valid_of t p ≡ true) × (start + 100 * 256 ≤ length b.old) }
    ensures { Prints b.old start (lines_of t (waiting p)) result b.new }
{
    let r = table_type::roster(t);
    let dead = table_settled::dead_set(t);
    let mut at = start;
    'lookups: for q in 0..p.count {
        let m = p.places[q];
        if m.kind == 1 {
            let from = m.dest as usize;
            let mut i = from;
            let mut hops: usize = 0;
            let mut letters = [0u8; 64];
            let mut end = None;
            'hops: for n in 0..64 {
                let v = t.nodes[i];
                let turn = turn_at(&r, dead, i, v, m.word);
                match turn {
                    Turn::Delivers => {
                        end = Some(i);
                        break 'hops;
                    }
                    Turn::Stops => break 'hops,
                    Turn::Goes(h) => {
                        letters[n] = letter_of(i, v, h);
                        i = h;
                        hops = n + 1;
                    }
                }
            }
            at = put_line(b, at, &r.ids, m, end, &letters[..hops]);
        }
    }
    at
}

// Writes the listing of a loaded table: the header line, and the line of each waiting lookup.
// Stays a clause, here and in `follow`: `valid_of t p`. A type of valid tables would be made and taken apart once, for the table that a load leaves.
// Stays by hand, as crate text: the contract says of each byte where it stands.
fn print(t: Table, p: Pool, out: &mut [u8]) -> usize
    requires { (valid_of t p ≡ true) × (65536 ≤ length out.old) }
    ensures { Prints out.old 0 (headline ++ lines_of t (waiting p)) result out.new }
{
    let at = text::put_text(out, 0, b"key from to hops via\n");
    follow(out, at, t, p)
}

// Writes the line of a refused file.
fn put_refused(b: &mut [u8], why: Refusal) -> usize
    requires { 65536 ≤ length b.old }
    ensures { Prints b.old 0 (refused_word ++ (decimal (refusal_number why) ++ (10 ∷ []))) result b.new }
{
    let number = parts::answer_number(Err(why));
    let at = text::put_text(b, 0, b"refused ");
    text::put_field(b, at, number, b'\n')
}

// Writes the listing of what a load left.
fn put_loaded(b: &mut [u8], s: Stepped) -> usize
    requires { Loaded s × (65536 ≤ length b.old) }
    ensures { Prints b.old 0 (print_of s) result b.new }
{
    let answer = s.answer;
    match answer {
        Ok(()) => print(s.table, s.pool, b),
        Err(why) => put_refused(b, why),
    }
}

// Writes the listing of a file into the first bytes of a buffer, and tells how many: of a table file its header line and a line for each
// waiting lookup, of any other file one line with the number of its refusal. 11 for a buffer of fewer than 65,536 bytes, which stays as it is.
pub fn list(file: &[u8], out: &mut [u8]) -> Wrote
    ensures { (result ≡ list_of file.now out.old) × (out.new ≡ listed_of file.now out.old) }
{
    if out.len() < 65536 {
        return Err(Refusal::NoRoom);
    }
    let s = file_read::load(
        file,
        table_parts::no_table(),
        table_parts::no_messages(),
        256,
    );
    Ok(put_loaded(out, s))
}
