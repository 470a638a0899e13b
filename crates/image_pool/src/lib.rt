// The waiting messages in place: a lent part of bytes, 56 for each message. What is taken out closes the gap by one move, what is new is written behind the last.
// Whole records are moved by their size alone. Each function asks of its callers that the part has room; what lies behind the messages afterwards is not told.
// Stays beside the part, in each function that writes: the count. The part is lent by its caller and has room for more than the messages that wait, and the count
// changes with every call; a type of the two would be made and taken apart for each.
#![tactic(auto)]

ghost use Rattle.std.specs.Prelude.{◌≡◌, ◌+◌, ◌-◌, ◌*◌, ◌<◌, ◌≤◌, [], ◌∷◌, ◌++◌, length, drop};
ghost use Rattle.std.proofs.Math.Seq.{paste};
ghost use Rattle.rules.specs.Mail.{alike as alike_of, first_equal, removed_at, added, without_probes, sent};
ghost use Rattle.marks.specs.Marks.{size_of};
ghost use Rattle.pool_laws.specs.InnerSending.{held_of, held_with, copies};
ghost use Rattle.words.specs.Bytes.{decode};
ghost use Rattle.file.specs.Format.{message_widths, message_from};
ghost use Rattle.file.specs.Held.{HeldMessage};
ghost use Rattle.image.specs.InnerRecords.{records_in, closed_up, messages_in};
ghost use Rattle.image_pool.specs.InnerTurns.{Keeps, Room};

use file_read::Part;
use rules::Message;

// Moves n bytes down by size: those from at + size on come to stand from at on.
fn move_down(b: &mut [u8], at: usize, size: usize, n: usize)
    requires { at + size + n ≤ length b.old }
    ensures { b.new ≡ paste b.old at (drop (at + size) b.old) n }
{
    let from = at + size;
    b.copy_within(from..from + n, at);
}

// Takes the record at place p out of `count`, and closes the gap.
pub fn take_out(part: &mut [u8], size: usize, count: usize, p: usize)
    requires { (p < count) × (size * count ≤ length part.old) }
    ensures { records_in size (count - 1) part.new ≡ closed_up (records_in size count part.old) p }
{
    let at = size * p;
    move_down(part, at, size, size * (count - 1 - p));
}

// Is the message whose record begins at a place equal to m in every field but the hops?
// Its word is read first, by itself: it differs most often.
fn is_alike(part: &[u8], at: usize, m: Message) -> bool
    requires { at + 56 ≤ length part.now }
    ensures { result ≡ alike_of (message_from (decode message_widths (drop at part.now))) m }
{
    words::read::<u32>(part, at + 8) == m.word && pool::alike(file_read::read_message(part, at), m)
}

// The first message that equals m, in pool order, of those left once place `gone` is away.
// Stays beside the search of crate pool, whose form 01 names (docs/DECISIONS.md, "01's code places"): that one reads messages, this one bytes.
pub fn first_equal(part: Part, gone: usize, m: Message) -> Option<usize>
    ensures { result ≡ first_equal (removed_at (messages_in part.entry.count part.entry.bytes.now) gone) m }
{
    let n = pool::left_count(part.count, gone);
    'places: for at in 0..n {
        let place = pool::place_of(gone, at);
        if is_alike(part.bytes, 56 * place, m) {
            return Some(at);
        }
    }
    None
}

// It does nothing, and says that each number of a message fits its field.
fn held(m: Message)
    ensures { HeldMessage m }
{}

// Writes m behind the n messages that wait.
pub fn append(part: &mut [u8], n: usize, m: Message)
    requires { (n < 256) × (56 * n + 56 ≤ length part.old) }
    ensures { messages_in (n + 1) part.new ≡ messages_in n part.old ++ (m ∷ []) }
{
    held(m);
    file_write::put_message(part, 56 * n, m);
}

// Takes place p of `count` out, then adds m unless an equal is left, and tells how many wait.
pub fn replace(part: &mut [u8], count: usize, p: usize, m: Message) -> usize
    requires { (p < count) × (count ≤ 256) × (56 * count ≤ length part.old) }
    ensures { messages_in result part.new ≡ added (removed_at (messages_in count part.old) p) m }
{
    let at = first_equal(Part { bytes: part, count }, p, m);
    take_out(part, 56, count, p);
    match at {
        Some(_) => count - 1,
        None => {
            append(part, count - 1, m);
            count
        }
    }
}

// Of the record at place `at`: moves it behind the first `kept`, unless it is an LSProbe from i to j, and tells how many are kept by then.
fn keep(part: &mut [u8], kept: usize, at: usize, i: u32, j: u32) -> usize
    requires { (kept ≤ at) × (at < 256) × (56 * at + 56 ≤ length part.old) }
    ensures { Keeps i j at kept part.old result part.new }
{
    let m = file_read::read_message(part, 56 * at);
    if pool::is_probe_from(i, j, m) {
        return kept;
    }
    move_down(part, 56 * kept, 56 * (at - kept), 56);
    kept + 1
}

// Takes the LSProbes from i to j out of `count`, wherever they stand: the others close up in their order. Tells how many wait.
pub fn take_probes_out(part: &mut [u8], count: usize, i: u32, j: u32) -> usize
    requires { (count ≤ 256) × (56 * count ≤ length part.old) }
    ensures { messages_in result part.new ≡ without_probes (messages_in count part.old) i j }
{
    let mut kept: usize = 0;
    for at in 0..count {
        kept = keep(part, kept, at, i, j);
    }
    kept
}

// A set of slots, with that of the message whose record begins at a place, if the message equals m in all but the slot.
// Its word is read first, as in `is_alike`.
fn with_slot(set: u64, part: &[u8], at: usize, m: Message) -> u64
    requires { at + 56 ≤ length part.now }
    ensures { result ≡ held_with m set (message_from (decode message_widths (drop at part.now))) }
{
    if words::read::<u32>(part, at + 8) != m.word {
        return set;
    }
    pool::held_with(set, file_read::read_message(part, at), m)
}

// The slots to which an equal of m waits.
// Stays beside `pool::held`, as `first_equal` beside its namesake.
fn held_slots(part: Part, m: Message) -> u64
    ensures { result ≡ held_of m (messages_in part.entry.count part.entry.bytes.now) }
{
    let mut set: u64 = 0;
    for at in 0..part.count {
        set = with_slot(set, part.bytes, 56 * at, m);
    }
    set
}

// Writes m for each slot of a set behind the n messages that wait, in rising slot order, and tells how many wait then.
// Stays a `while let`: each member is taken out of the set in its turn, and an iterator of members would be a type and a contract more (pick::best).
pub fn append_all(part: &mut [u8], n: usize, m: Message, set: u64) -> usize
    requires { (n + size_of set ≤ 256) × (56 * (n + size_of set) ≤ length part.old) }
    ensures { messages_in result part.new ≡ messages_in n part.old ++ copies m set }
{
    let mut end = n;
    let mut rest = set;
    'slots: while let Some(s) = marks::lowest(rest) {
        append(part, end, parts::to_slot(m, s as u32));
        end += 1;
        rest = marks::removed(rest, s);
    }
    end
}

// Sends m to each slot of a set, in rising slot order, where no equal waits, and tells how many wait then. There must be room for what then waits.
pub fn send_all(part: &mut [u8], count: usize, m: Message, set: u64) -> usize
    requires { Room 256 (sent m set (messages_in count part.old)) part.old }
    ensures { messages_in result part.new ≡ sent m set (messages_in count part.old) }
{
    let have = held_slots(Part { bytes: part, count }, m);
    append_all(part, count, m, marks::less(set, have))
}
