// A contractor's rehearsal, checked: a starting table file, then actions, each with the table file that is said to result. They are handed over
// singly; between two of them the checker holds one table, the last that was found good, and while it looks at a step the table after it too.
#![tactic(auto)]

ghost use Rattle.std.specs.Prelude.{◌≡◌, true, ◌<◌, length};
ghost use Rattle.file.specs.Format.{file_of};
ghost use Rattle.table.specs.Valid.{valid_of};
ghost use Rattle.rehearsal.specs.Rehearsal.{most_steps, same as same_of, agrees_with, is_open, start_verdict, checked_of};
ghost use Rattle.over_rehearsal.specs.Contract.{Begin, Next, Number};
ghost use Rattle.table.specs.InnerDone.{ValidDone};

use rehearsal::{Checker, Handed, Reply, Verdict};
use rules::{Action, Pool, Refusal};
use table_type::{Stepped, Table};

// The number of a reply: 0 for a step that was looked at, whether it was found good or bad, and 12 for a further step after an end or beyond 1,000.
// Stays: no impl of From can stand for it, since Reply and u32 are both of other crates.
pub fn number(r: Reply) -> u32
    ensures { Number r result }
{
    r as u32
}

// Is this precisely the file of the table and the messages? It is written into a buffer that has room for the longest file.
// Stays a clause, here and in `gives`: `valid_of t p`. A type of valid tables would be made and taken apart once, for the table that a step leaves.
fn gives_in(t: Table, p: Pool, stated: &[u8], file: &mut [u8]) -> bool
    requires { (valid_of t p ≡ true) × (18464 ≡ length file.old) }
    ensures { result ≡ same_of (file_of t p) stated.now }
{
    match file_write::write(t, p, 256, file) {
        Ok(count) => &file[..count] == stated,
        Err(_) => false,
    }
}

// The same, with a buffer of its own.
fn gives(t: Table, p: Pool, stated: &[u8]) -> bool
    requires { valid_of t p ≡ true }
    ensures { result ≡ same_of (file_of t p) stated.now }
{
    let mut file = [0u8; 18464];
    gives_in(t, p, stated, &mut file)
}

// Is the step done, with precisely the stated file?
fn agrees(s: Stepped, stated: &[u8]) -> bool
    requires { ValidDone s }
    ensures { result ≡ agrees_with s stated.now }
{
    let answer = s.answer;
    let t = s.table;
    let p = s.pool;
    match answer {
        Ok(()) => gives(t, p, stated),
        Err(_) => false,
    }
}

// Can a further step be looked at?
fn is_open(v: Verdict, steps: usize) -> bool
    ensures { result ≡ is_open v steps }
{
    v.is_ok() && steps < 1000
}

// The checker once it has looked at a step and its stated file.
fn checked(c: Checker, s: Stepped, stated: &[u8]) -> Checker
    requires { ValidDone s × (c.steps < most_steps) }
    ensures { result ≡ checked_of c s stated.now }
{
    let steps = c.steps + 1;
    if agrees(s, stated) {
        let table = s.table;
        let pool = s.pool;
        Checker {
            verdict: Ok(()),
            steps,
            table,
            pool,
        }
    } else {
        Checker {
            verdict: Err(steps),
            ..c
        }
    }
}

// What is said of a rehearsal by its start alone.
fn start_verdict(answer: Result<(), Refusal>) -> Verdict
    ensures { result ≡ start_verdict answer }
{
    match answer {
        Ok(()) => Ok(()),
        Err(_) => Err(0),
    }
}

// Begins with the starting table file: accepted so far if it loads, else the start is bad, with the number 0.
pub fn begin(file: &[u8]) -> Checker
    ensures { Begin file.now result }
{
    let s = face_file::loaded(file);
    let answer = s.answer;
    let table = s.table;
    let pool = s.pool;
    Checker {
        verdict: start_verdict(answer),
        steps: 0,
        table,
        pool,
    }
}

// Looks at one more step: an action, and the table file that is said to result. 12 after an end or beyond 1,000, and the checker stays as it is.
pub fn next(c: Checker, a: Action, stated: &[u8]) -> Handed
    ensures { Next c a stated.now result }
{
    let verdict = c.verdict;
    if !is_open(verdict, c.steps) {
        return Handed {
            reply: Reply::Over,
            checker: c,
        };
    }
    let t = c.table;
    let p = c.pool;
    let s = table_step::step(t, p, 256, a);
    Handed {
        reply: Reply::LookedAt,
        checker: checked(c, s, stated),
    }
}
