// Table files in, table files out: what a caller asks who holds nothing but bytes and numbers.
#![tactic(auto)]

ghost use Rattle.std.specs.Prelude.{◌≡◌};
ghost use Rattle.table_type.specs.Start.{no_table};
ghost use Rattle.face.specs.Calls.{loaded_of, next_of, begun_of, wrote_by, left_by, moved_by, rest_by};

use face::{Moved, Rest};
use file::Wrote;
use rules::{Action, Refusal};
use table_type::{Stepped, Table};

// The table of no node.
pub fn no_table() -> Table
    ensures { result ≡ no_table }
{
    table_parts::no_table()
}

// What the file holds, or its refusal.
pub fn loaded(file: &[u8]) -> Stepped
    ensures { result ≡ loaded_of file.now }
{
    file_read::load(
        file,
        table_parts::no_table(),
        table_parts::no_messages(),
        256,
    )
}

// The step, where what came before it was done.
fn next(s: Stepped, a: Action) -> Stepped
    ensures { result ≡ next_of s a }
{
    let answer = s.answer;
    let t = s.table;
    let p = s.pool;
    match answer {
        Ok(()) => table_step::step(t, p, 256, a),
        Err(why) => table_parts::refused(t, p, why),
    }
}

// Writes the table, where what came before it was done.
fn written(s: Stepped, out: &mut [u8]) -> Wrote
    ensures { (result ≡ wrote_by s out.old) × (out.new ≡ left_by s out.old) }
{
    s.answer?;
    file_write::write(s.table, s.pool, 256, out)
}

// The start; 8 for M or L at or above 2^32.
fn begun(m: u64, l: u64, a: u64, ids: &[u32]) -> Stepped
    ensures { result ≡ begun_of m l a ids.now }
{
    let t = table_parts::no_table();
    let p = table_parts::no_messages();
    let Ok(m) = u32::try_from(m) else {
        return table_parts::refused(t, p, Refusal::Header);
    };
    let Ok(l) = u32::try_from(l) else {
        return table_parts::refused(t, p, Refusal::Header);
    };
    face_table::start(t, p, 256, m, l, ids, a)
}

// Reads a table file and writes it back. A refusal of either leaves `out` as it is.
pub fn reload(file: &[u8], out: &mut [u8]) -> Wrote
    ensures r { result ≡ wrote_by (loaded_of file.now) out.old }
    ensures left { out.new ≡ left_by (loaded_of file.now) out.old }
{
    written(loaded(file), out)
}

// Reads a table file, makes a step, and writes the table file after it. A refusal of any of the three leaves `out` as it is.
pub fn step_file(file: &[u8], a: Action, out: &mut [u8]) -> Result<Moved, Refusal>
    ensures r { result ≡ moved_by (next_of (loaded_of file.now) a) out.old }
    ensures left { out.new ≡ left_by (next_of (loaded_of file.now) a) out.old }
{
    let s = next(loaded(file), a);
    let via = s.via;
    let count = written(s, out)?;
    Ok(Moved { count, via })
}

// Makes a table of M, L, the set A and the ids, and writes its file. A refusal of either leaves `out` as it is.
pub fn start_file(m: u64, l: u64, a: u64, ids: &[u32], out: &mut [u8]) -> Wrote
    ensures r { result ≡ wrote_by (begun_of m l a ids.now) out.old }
    ensures left { out.new ≡ left_by (begun_of m l a ids.now) out.old }
{
    written(begun(m, l, a, ids), out)
}

// Reads a table file, and tells whether its table is settled.
pub fn settled_file(file: &[u8]) -> Rest
    ensures { result ≡ rest_by (loaded_of file.now) }
{
    let s = loaded(file);
    s.answer?;
    face_table::settled(s.table, s.pool, 256)
}
