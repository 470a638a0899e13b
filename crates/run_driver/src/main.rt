// Answers requests on standard input until it ends. All numbers are little-endian. A request: a word of 32 bits, its length, then a byte,
// its kind, then its arguments as words of 64 bits, then a table file (for a start the ids, words of 32 bits; for kinds 7 and 9 nothing).
// The answer: a word of 32 bits, its length, a word of 32 bits, its number, then, where the number is 0, the result. docs/DRIVER.md has
// the kinds. Between requests nothing is held but the checker of a rehearsal and the water records.
#![tactic(auto)]

mod asked; // what a request says
mod claims; // kinds 5 and 6
mod steps; // kinds 0 to 4, and 11
mod told; // what a reply says
mod waiting; // kind 10
mod records; // kinds 7 to 9

use rehearsal::Checker;
use std::io;
use std::io::Read;
use told::{Led, Reply};
use water::Store;

// The reply to a request of another kind.
// Stays: a kind is a number, here, in `hear` and in `keep`: `asked::kind_of` reads it, and its contract speaks of no other reading.
fn reply_to(request: &[u8], out: &mut [u8]) -> Reply {
    let kind = asked::kind_of(request);
    let rest = asked::rest_of(request);
    match kind {
        0 => steps::load(rest, out),
        1 => steps::make_step(rest, out),
        2 => steps::make_start(rest, out),
        3 => steps::ask_settled(rest, out),
        4 => steps::print_list(rest, out),
        10 => waiting::ask_waiting(rest, out),
        _ => told::malformed(),
    }
}

// Sends the length of a reply and its number.
fn send_head(rt: &impl Print, number: u32, count: usize) -> io::Result<()> {
    let head = told::head_of((count % 1048576 + 4) as u32, number);
    rt.write_all(&head)
}

// Sends the first bytes.
fn send_bytes(rt: &impl Print, out: &[u8], n: usize) -> io::Result<()> {
    match out.get(..n) {
        Some(bytes) => rt.write_all(bytes),
        None => Err(io::ErrorKind::InvalidInput.into()),
    }
}

// Sends a reply.
fn send(rt: &impl Print, r: Reply, out: &[u8]) -> io::Result<()> {
    if r.number != 0 {
        return send_head(rt, r.number, 0);
    }
    send_head(rt, 0, r.count)?;
    send_bytes(rt, out, r.count)
}

// Sends a reply with the byte before its result.
fn send_led(rt: &impl Print, l: Led, out: &[u8]) -> io::Result<()> {
    let r = l.reply;
    if r.number != 0 {
        return send_head(rt, r.number, 0);
    }
    send_head(rt, 0, r.count % 1048576 + 1)?;
    let lead = [(l.lead % 256) as u8];
    rt.write_all(&lead)?;
    send_bytes(rt, out, r.count)
}

// Reads past the next bytes.
fn skip(rt: &impl Input, body: &mut [u8], n: usize) -> io::Result<()> {
    let most = body.len();
    if most == 0 {
        return Err(io::ErrorKind::InvalidInput.into());
    }
    for _ in 0..n / most {
        rt.reader().read_exact(body)?;
    }
    rt.reader().read_exact(&mut body[..n % most])
}

// Reads the next request: how long it is, or none at the end of the input. One that is too long is read past, and counts as an empty one, which is
// none either.
fn receive(rt: &impl Input, body: &mut [u8]) -> Option<usize> {
    let mut head = [0u8; 4];
    rt.reader().read_exact(&mut head).ok()?;
    let n = words::read::<u32>(&head, 0) as usize;
    if n > body.len() {
        skip(rt, body, n).ok()?;
        return Some(0);
    }
    rt.reader().read_exact(&mut body[..n]).ok()?;
    Some(n)
}

// Is it the kind of a request of a rehearsal or of records?
// Stays: a kind is a number, since the wire's is one (docs/DRIVER.md).
fn is_held(kind: u64) -> bool {
    (5..=9).contains(&kind)
}

// Answers a request of a rehearsal: the checker after it, if the reply was sent.
fn rehearse(rt: &impl Print, c: Checker, request: &[u8], out: &mut [u8]) -> Option<Checker> {
    let h = claims::hear(c, request, out);
    send(rt, h.reply, out).ok()?;
    Some(h.checker)
}

// Answers a request of records: the records after it, if the reply was sent.
fn record(rt: &impl Print, s: Store, request: &[u8], out: &mut [u8]) -> Option<Store> {
    let k = records::keep(s, request, out);
    send(rt, k.reply, out).ok()?;
    Some(k.store)
}

// Answers a request of another kind.
fn answer(rt: &impl Print, request: &[u8], out: &mut [u8]) -> io::Result<()> {
    if asked::kind_of(request) == 11 {
        return send_led(rt, steps::make_step_via(asked::rest_of(request), out), out);
    }
    send(rt, reply_to(request, out), out)
}

// Answers requests until one of a rehearsal or of records has come: how long it is, or none at the end.
fn serve_others(rt: &(impl Input + Print), body: &mut [u8], out: &mut [u8]) -> Option<usize> {
    for _ in 0..u64::MAX {
        let n = receive(rt, body)?;
        let request = body.get(..n)?;
        if is_held(asked::kind_of(request)) {
            return Some(n);
        }
        answer(rt, request, out).ok()?;
    }
    None
}

// Answers all requests, with a checker and records to begin with. Neither is moved but for its own requests. None at the end.
fn serve_all(
    rt: &(impl Input + Print),
    first: Checker,
    none: Store,
    body: &mut [u8],
    out: &mut [u8],
) -> Option<()> {
    let mut checker = first;
    let mut store = none;
    for _ in 0..u64::MAX {
        let n = serve_others(rt, body, out)?;
        let request = body.get(..n)?;
        if asked::kind_of(request) < 7 {
            checker = rehearse(rt, checker, request, out)?;
        } else {
            store = record(rt, store, request, out)?;
        }
    }
    Some(())
}

// The checker begins with an empty file, which is no start.
fn main(rt: HostRuntime) {
    let mut body = [0u8; 65536];
    let mut out = [0u8; 65536];
    let _ = serve_all(
        &rt,
        over_rehearsal::begin(&body[..0]),
        over_water::empty(),
        &mut body,
        &mut out,
    );
}
