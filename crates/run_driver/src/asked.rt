// Requests: a byte, its kind, then words of 64 bits, its arguments, then what its kind asks for.
ghost use Rattle.std.specs.Prelude.{◌≡◌, ◌+◌, ◌*◌, ◌≤◌, length, take, drop};
ghost use Rattle.run_driver.specs.Requests.{kind_of, action_in, field_of, record_in, id_count, ids_in};

use rules::Action;
use water::Record;

// The kind of a request; 255, which is none, where it has no byte.
// Stays: the number is the wire's (docs/DRIVER.md).
pub fn kind_of(request: &[u8]) -> u64
    ensures { result ≡ kind_of request.now }
{
    match request {
        [kind, ..] => u64::from(*kind),
        [] => 255,
    }
}

// What comes behind the kind of a request; nothing where it has no byte.
pub fn rest_of(request: &[u8]) -> &[u8]
    ensures { result.now ≡ drop 1 request.now }
{
    match request {
        [_, rest @ ..] => rest,
        [] => request,
    }
}

// The action of a request, with its two words.
// Stays a clause, here and in `id_count` and `start_of`: 24 bytes. Each request is tested once, where it is read.
pub fn action_in(rest: &[u8]) -> Option<Action>
    requires { 24 ≤ length rest.now }
    ensures { result ≡ action_in rest.now }
{
    let action = words::read::<u64>(rest, 0);
    let x = words::read::<u64>(rest, 8);
    let y = words::read::<u64>(rest, 16);
    face_c::action_of(action, x, y)
}

// A word as a field of a record, which has 32 bits. A larger one is out of range, and so is the largest field.
fn field(x: u64) -> u32
    ensures { result ≡ field_of x }
{
    u32::try_from(x).unwrap_or(u32::MAX)
}

// The record of a request.
pub fn record_in(rest: &[u8]) -> Record
    requires { 40 ≤ length rest.now }
    ensures { result ≡ record_in rest.now }
{
    let key = words::read::<u64>(rest, 0);
    let month = field(words::read::<u64>(rest, 8));
    let rain = field(words::read::<u64>(rest, 16));
    let evapotranspiration = field(words::read::<u64>(rest, 24));
    let runoff = field(words::read::<u64>(rest, 32));
    Record {
        key,
        month,
        rain,
        evapotranspiration,
        runoff,
    }
}

// How many ids of a start are looked at, the first 65: more than 64 are out of range anyhow.
pub fn id_count(rest: &[u8]) -> usize
    requires { 24 ≤ length rest.now }
    ensures { result ≡ id_count rest.now }
{
    ((rest.len() - 24) / 4).min(65)
}

// The first n ids of a start, in fixed memory: n is known to be at most 65, and the places behind them are not read.
pub fn ids_in(rest: &[u8], n: usize) -> [u32; 65]
    requires { (n ≤ 65) × (24 + 4 * n ≤ length rest.now) }
    ensures { (65 ≡ length result) × (take n result ≡ ids_in n rest.now) }
{
    let mut ids = [0u32; 65];
    for i in 0..n {
        ids[i] = words::read(rest, 24 + 4 * i);
    }
    ids
}
