// Requests of a rehearsal, whose checker is held between them.
use super::told::Reply;
use super::{asked, told};
use rehearsal::{Checker, Handed};

// A reply, and the checker after it.
// Stays: the checker is held on whatever the reply.
#[derive(Clone, Copy)]
pub struct Heard {
    pub reply: Reply,
    pub checker: Checker,
}

// A reply that leaves the checker as it is.
pub fn unmoved(c: Checker, reply: Reply) -> Heard {
    Heard { reply, checker: c }
}

// The checker's verdict.
pub fn judged(c: Checker, out: &mut [u8]) -> Heard {
    let verdict = c.verdict;
    unmoved(c, told::tell_verdict(verdict, out))
}

// What is said of a step that was handed over.
fn told_of(h: Handed, out: &mut [u8]) -> Heard {
    let reply = h.reply;
    let checker = h.checker;
    let number = over_rehearsal::number(reply);
    if number != 0 {
        return unmoved(checker, told::refused(number));
    }
    judged(checker, out)
}

// An action and two words, and the table file that it is stated to give.
pub fn next_step(c: Checker, rest: &[u8], out: &mut [u8]) -> Heard {
    if rest.len() < 24 {
        return unmoved(c, told::malformed());
    }
    match asked::action_in(rest) {
        Some(a) => told_of(over_rehearsal::next(c, a, &rest[24..]), out),
        None => unmoved(c, told::malformed()),
    }
}

// The reply to a request of a rehearsal.
pub fn hear(c: Checker, request: &[u8], out: &mut [u8]) -> Heard {
    let kind = asked::kind_of(request);
    let rest = asked::rest_of(request);
    match kind {
        5 => judged(over_rehearsal::begin(rest), out),
        6 => next_step(c, rest, out),
        _ => unmoved(c, told::malformed()),
    }
}
