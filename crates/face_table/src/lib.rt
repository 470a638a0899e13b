// The start and the question whether a table is settled, by value, for any input.
#![tactic(auto)]

ghost use Rattle.std.specs.Prelude.{◌≡◌, []};
ghost use Rattle.rules.specs.Pool.{laid};
ghost use Rattle.face.specs.Asked.{start_step, rest_of};

use face::Rest;
use rules::{Pool, Refusal};
use table_type::{Stepped, Table};

// The pool in which none waits.
pub fn no_messages() -> Pool
    ensures { result ≡ laid [] }
{
    table_parts::no_messages()
}

// The table of a start, with no messages; a refusal leaves table and pool as they are.
pub fn start(t: Table, p: Pool, len: usize, m: u32, l: u32, ids: &[u32], a: u64) -> Stepped
    ensures { result ≡ start_step t p len m l ids.now a }
{
    if len != 256 {
        return table_parts::refused(t, p, Refusal::Invalid);
    }
    match Table::start(m, l, ids, a) {
        Ok(made) => table_parts::done(made, table_parts::no_messages()),
        Err(why) => table_parts::refused(t, p, why),
    }
}

// Is the table settled?
pub fn settled(t: Table, p: Pool, len: usize) -> Rest
    ensures { result ≡ rest_of t p len }
{
    if len != 256 {
        return Err(Refusal::Invalid);
    }
    if !table_valid::is_valid(t, p) {
        return Err(Refusal::Invalid);
    }
    Ok(table_settled::is_settled_table(t))
}
