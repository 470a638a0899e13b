// Requests of one table file: load, step, start, settled and list, and the step with its letter.
ghost use Rattle.std.specs.Prelude.{◌≤◌, length};
ghost use Rattle.face.specs.Calls.{begun_of};
ghost use Rattle.run_driver.specs.Requests.{word_at};
ghost use Rattle.run_driver.specs.Replies.{Says, LeadsTo};
ghost use Rattle.run_driver.specs.Kinds.{load_said, step_said, step_via_said, begun_said, start_said, settled_said, list_said};

use super::told::{Led, Reply};
use super::{asked, told};

// Reads a table file and writes it back.
pub fn load(rest: &[u8], out: &mut [u8]) -> Reply
    ensures { Says (load_said rest.now out.old) result out.new }
{
    told::unpacked(face_c::tarpudhriv_load(rest, out))
}

// An action and two words, and the table file on which it is made.
pub fn make_step(rest: &[u8], out: &mut [u8]) -> Reply
    ensures { Says (step_said rest.now out.old) result out.new }
{
    if rest.len() < 24 {
        return told::malformed();
    }
    let action = words::read::<u64>(rest, 0);
    let x = words::read::<u64>(rest, 8);
    let y = words::read::<u64>(rest, 16);
    told::unpacked(face_c::tarpudhriv_step(&rest[24..], action, x, y, out))
}

// The same, with the letter of where the next hop came from before the file.
pub fn make_step_via(rest: &[u8], out: &mut [u8]) -> Led
    ensures { LeadsTo (step_via_said rest.now out.old) result out.new }
{
    if rest.len() < 24 {
        let reply = told::malformed();
        return Led { reply, lead: 0 };
    }
    let action = words::read::<u64>(rest, 0);
    let x = words::read::<u64>(rest, 8);
    let y = words::read::<u64>(rest, 16);
    told::unlettered(face_c::tarpudhriv_step_via(&rest[24..], action, x, y, out))
}

// A start of the ids.
fn start_of(rest: &[u8], ids: &[u32], out: &mut [u8]) -> Reply
    requires { 24 ≤ length rest.now }
    ensures { Says (begun_said (begun_of (word_at 0 rest.now) (word_at 8 rest.now) (word_at 16 rest.now)
        ids.now) out.old) result out.new }
{
    let m = words::read::<u64>(rest, 0);
    let l = words::read::<u64>(rest, 8);
    let a = words::read::<u64>(rest, 16);
    told::reply_of(face_file::start_file(m, l, a, ids, out))
}

// M, L, the set A as marks, and the ids.
pub fn make_start(rest: &[u8], out: &mut [u8]) -> Reply
    ensures { Says (start_said rest.now out.old) result out.new }
{
    if rest.len() < 24 {
        return told::malformed();
    }
    if rest.len() % 4 != 0 {
        return told::malformed();
    }
    let n = asked::id_count(rest);
    let ids = asked::ids_in(rest, n);
    start_of(rest, &ids[..n], out)
}

// Is the table of a file settled?
pub fn ask_settled(rest: &[u8], out: &mut [u8]) -> Reply
    ensures { Says (settled_said rest.now out.old) result out.new }
{
    told::tell_rest(face_file::settled_file(rest), out)
}

// The listing of a file.
pub fn print_list(rest: &[u8], out: &mut [u8]) -> Reply
    ensures { Says (list_said rest.now out.old) result out.new }
{
    told::reply_of(file_list::list(rest, out))
}
