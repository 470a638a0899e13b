// Requests of water records, which are held between them.
use super::told::Reply;
use super::{asked, told};
use table_type::Stepped;
use water::{Placed, Record, Store};

// A reply, and the records after it.
// Stays: the records are held on whatever the reply.
#[derive(Clone, Copy)]
pub struct Kept {
    pub reply: Reply,
    pub store: Store,
}

// A reply, and the records as they are then.
pub fn beside(s: Store, reply: Reply) -> Kept {
    Kept { reply, store: s }
}

// What is said of a record that was handed over. One that was accepted is found.
fn tell_placed(p: Placed, r: Record, out: &mut [u8]) -> Kept {
    let reply = p.reply;
    let store = p.store;
    let number = over_water::number(reply);
    if number != 0 {
        return beside(store, told::refused(number));
    }
    match over_water::look_up(store, r.key, r.month) {
        Some(h) => beside(store, told::tell_held(h, out)),
        None => beside(store, told::malformed()),
    }
}

// Places a record on the table of a file, where it loads.
fn place_on(s: Store, r: Record, file: Stepped, out: &mut [u8]) -> Kept {
    let answer = file.answer;
    let t = file.table;
    let p = file.pool;
    match answer {
        Ok(()) => tell_placed(over_water::place(t, p, 256, s, r), r, out),
        Err(why) => beside(s, told::refused_by(why)),
    }
}

// A record, and a table file.
pub fn place(s: Store, rest: &[u8], out: &mut [u8]) -> Kept {
    if rest.len() < 40 {
        return beside(s, told::malformed());
    }
    let r = asked::record_in(rest);
    place_on(s, r, face_file::loaded(&rest[40..]), out)
}

// The reply to a request of records.
pub fn keep(s: Store, request: &[u8], out: &mut [u8]) -> Kept {
    let kind = asked::kind_of(request);
    let rest = asked::rest_of(request);
    match (kind, rest) {
        (7, []) => beside(over_water::empty(), told::reply_of(Ok(0))),
        (8, _) => place(s, rest, out),
        (9, []) => beside(s, told::tell_sum(s, out)),
        _ => beside(s, told::malformed()),
    }
}
