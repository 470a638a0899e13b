// The calls for other languages, exported: each is the function of `face_c` of its name, under the same clauses. include/tarpudhriv.h declares them.
#![tactic(auto)]

ghost use Rattle.std.specs.Prelude.{◌≡◌};
ghost use Rattle.face.specs.Calls.{loaded_of, begun_of, wrote_by, left_by, rest_by};
ghost use Rattle.listing.specs.List.{list_of, listed_of};
ghost use Rattle.face_c.specs.Words.{pack_of, rest_word, asked_of, step_word, via_word, step_left};

// Reads a table file and writes it back.
#[unsafe(no_mangle)]
pub extern "C" fn tarpudhriv_load(file: &[u8], out: &mut [u8]) -> u64
    ensures r { result ≡ pack_of (wrote_by (loaded_of file.now) out.old) }
    ensures left { out.new ≡ left_by (loaded_of file.now) out.old }
{
    face_c::tarpudhriv_load(file, out)
}

// Reads a table file, makes a step, and writes the table file after it. 4294967295 for a number that is no action's.
#[unsafe(no_mangle)]
pub extern "C" fn tarpudhriv_step(file: &[u8], action: u64, x: u64, y: u64, out: &mut [u8]) -> u64
    ensures r { result ≡ step_word (asked_of action x y) file.now out.old }
    ensures left { out.new ≡ step_left (asked_of action x y) file.now out.old }
{
    face_c::tarpudhriv_step(file, action, x, y, out)
}

// The same step, and the letter of where the next hop came from in the highest byte of the result: `l`, `r`, or 0 where it routed nothing.
#[unsafe(no_mangle)]
pub extern "C" fn tarpudhriv_step_via(
    file: &[u8],
    action: u64,
    x: u64,
    y: u64,
    out: &mut [u8],
) -> u64
    ensures r { result ≡ via_word (asked_of action x y) file.now out.old }
    ensures left { out.new ≡ step_left (asked_of action x y) file.now out.old }
{
    face_c::tarpudhriv_step_via(file, action, x, y, out)
}

// Makes a table of M, L, the set A as marks and the ids, and writes its file.
#[unsafe(no_mangle)]
pub extern "C" fn tarpudhriv_start(m: u64, l: u64, a: u64, ids: &[u32], out: &mut [u8]) -> u64
    ensures r { result ≡ pack_of (wrote_by (begun_of m l a ids.now) out.old) }
    ensures left { out.new ≡ left_by (begun_of m l a ids.now) out.old }
{
    face_c::tarpudhriv_start(m, l, a, ids, out)
}

// Reads a table file, and tells whether its table is settled: 1 or 0 in the high 32 bits, where the number is 0.
#[unsafe(no_mangle)]
pub extern "C" fn tarpudhriv_settled(file: &[u8]) -> u64
    ensures { result ≡ rest_word (rest_by (loaded_of file.now)) }
{
    face_c::tarpudhriv_settled(file)
}

// Writes the listing of a file, `refused N` and all. 11 for a buffer of fewer than 65,536 bytes, and no other number.
#[unsafe(no_mangle)]
pub extern "C" fn tarpudhriv_list(file: &[u8], out: &mut [u8]) -> u64
    ensures r { result ≡ pack_of (list_of file.now out.old) }
    ensures left { out.new ≡ listed_of file.now out.old }
{
    face_c::tarpudhriv_list(file, out)
}
