// Replies: a number, and the bytes of a result at the start of a buffer.
ghost use Rattle.std.specs.Prelude.{◌≡◌, [], ◌∷◌, ◌++◌, ◌%◌};
ghost use Rattle.rules.specs.Numbers.{refusal_number};
ghost use Rattle.words.specs.Bytes.{bytes_of};
ghost use Rattle.run_driver.specs.Replies.{Says, numbered, no_request, reply_by, reply_in, led_in, result_of};
ghost use Rattle.run_driver.specs.Replies.{rest_said, first_said, verdict_said};

use counts::First;
use face::Rest;
use file::Wrote;
use rehearsal::Verdict;
use rules::Refusal;
use water::{Held, Store};

// A number, and how many bytes of the buffer are the result: as they are sent.
// Stays: a Result would be made into this pair at once, and a malformed request has a number that is no refusal's (specs/Replies, `no_request` and `reply_by`).
#[derive(Clone, Copy, Debug, PartialEq, Eq)]
pub struct Reply {
    pub number: u32,
    pub count: usize,
}

// A reply whose result has the byte `lead` before the bytes of the buffer.
// Stays: what may not change: `led_in` of specs/Replies.antt gives a byte with every number.
#[derive(Clone, Copy, Debug, PartialEq, Eq)]
pub struct Led {
    pub reply: Reply,
    pub lead: u64,
}

// A number alone.
pub fn refused(number: u32) -> Reply
    ensures { result ≡ numbered number }
{
    Reply { number, count: 0 }
}

// What a request that is none is answered.
pub fn malformed() -> Reply
    ensures { result ≡ numbered no_request }
{
    refused(4294967295)
}

// 01's number of a refusal alone.
pub fn refused_by(why: Refusal) -> Reply
    ensures { result ≡ numbered (refusal_number why) }
{
    refused(parts::answer_number(Err(why)))
}

// A word of the exported calls as a reply.
pub fn unpacked(x: u64) -> Reply
    ensures { result ≡ reply_in x }
{
    Reply {
        number: (x % 4294967296) as u32,
        count: (x / 4294967296) as usize,
    }
}

// The word of a step with its letter as a reply.
pub fn unlettered(x: u64) -> Led
    ensures { result ≡ led_in x }
{
    let reply = Reply {
        number: (x % 4294967296) as u32,
        count: (x / 4294967296 % 16777216) as usize,
    };
    Led {
        reply,
        lead: x / 72057594037927936,
    }
}

pub fn reply_of(w: Wrote) -> Reply
    ensures { result ≡ reply_by w }
{
    match w {
        Ok(count) => Reply { number: 0, count },
        Err(why) => refused_by(why),
    }
}

// A number as a word of 32 bits.
// Stays: the low half of a count of any size, where a `try_from` could fail.
fn low(x: usize) -> u32
    ensures { result ≡ x % 4294967296 }
{
    (x % 4294967296) as u32
}

// A result of one byte.
fn flag(x: u8, out: &mut [u8]) -> Reply
    ensures { Says (result_of (x ∷ []) out.old) result out.new }
{
    if out.len() < 1 {
        return refused_by(Refusal::NoRoom);
    }
    let count = text::put_byte(out, 0, x);
    Reply { number: 0, count }
}

// A result of a byte and a word.
fn flag_word(x: u8, y: u32, out: &mut [u8]) -> Reply
    ensures { Says (result_of (x ∷ bytes_of 4 y) out.old) result out.new }
{
    if out.len() < 5 {
        return refused_by(Refusal::NoRoom);
    }
    let at = text::put_byte(out, 0, x);
    let count = words::write(out, at, y);
    Reply { number: 0, count }
}

// A result of a word and a long word.
fn two_words(x: u32, y: u64, out: &mut [u8]) -> Reply
    ensures { Says (result_of (bytes_of 4 x ++ bytes_of 8 y) out.old) result out.new }
{
    if out.len() < 12 {
        return refused_by(Refusal::NoRoom);
    }
    let at = words::write(out, 0, x);
    let count = words::write(out, at, y);
    Reply { number: 0, count }
}

// A result of a word and two long words.
fn three_words(x: u32, y: u64, z: u64, out: &mut [u8]) -> Reply
    ensures { Says (result_of (bytes_of 4 x ++ (bytes_of 8 y ++ bytes_of 8 z)) out.old) result out.new }
{
    if out.len() < 20 {
        return refused_by(Refusal::NoRoom);
    }
    let a1 = words::write(out, 0, x);
    let a2 = words::write(out, a1, y);
    let count = words::write(out, a2, z);
    Reply { number: 0, count }
}

// Whether a table is settled.
pub fn tell_rest(said: Rest, out: &mut [u8]) -> Reply
    ensures { Says (rest_said said out.old) result out.new }
{
    match said {
        Ok(true) => flag(1, out),
        Ok(false) => flag(0, out),
        Err(why) => refused_by(why),
    }
}

// What waits for a node: 1 and the place of its first message, or 0 where it has none.
pub fn tell_first(f: First, out: &mut [u8]) -> Reply
    ensures { Says (first_said f out.old) result out.new }
{
    match f {
        Ok(Some(place)) => flag_word(1, low(place), out),
        Ok(None) => flag(0, out),
        Err(why) => refused_by(why),
    }
}

// The verdict so far: 1, or 0 and then the number of the first bad step.
pub fn tell_verdict(v: Verdict, out: &mut [u8]) -> Reply
    ensures { Says (verdict_said v out.old) result out.new }
{
    match v {
        Ok(()) => flag(1, out),
        Err(k) => flag_word(0, low(k), out),
    }
}

// A held record: the slot of its holder, its copies as marks, and its change in two's complement.
pub fn tell_held(h: Held, out: &mut [u8]) -> Reply {
    let change = over_water::change(h.original);
    three_words(low(h.holder), h.copies, change.cast_unsigned(), out)
}

// The number of records and the sum of their changes, in two's complement.
pub fn tell_sum(s: Store, out: &mut [u8]) -> Reply {
    two_words(low(s.count), over_water::sum(s).cast_unsigned(), out)
}

// The length of a reply and its number, as bytes.
pub fn head_of(n: u32, number: u32) -> [u8; 8]
    ensures { result ≡ bytes_of 4 n ++ bytes_of 4 number }
{
    let mut head = [0u8; 8];
    let at = words::write(&mut head, 0, n);
    words::write(&mut head, at, number);
    head
}
