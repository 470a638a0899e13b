// Prints the listing of the table file on standard input.
#![tactic(auto)]

ghost use Rattle.std.specs.Prelude.{◌≤◌, length};

use std::io::Read;

// Reads until the buffer is full or the input ends, and gives how many bytes it has put at the start.
// Stays: the library's `read_exact` does not tell how many came before an end, and `read_to_end` wants a buffer that grows, where the programs too use fixed memory.
fn read_full(rt: &impl Input, buf: &mut [u8]) -> usize
    ensures { result ≤ length buf.new }
{
    let mut done = 0;
    while done < buf.len() {
        let n = rt.reader().read(&mut buf[done..]).unwrap_or(0);
        if n == 0 {
            break;
        }
        done += n;
    }
    done
}

// Reads on once, and answers whether more came.
fn skip_some(rt: &impl Input) -> bool {
    let mut buf = [0u8; 65536];
    rt.reader().read(&mut buf).unwrap_or(0) > 0
}

// Reads on to the end of the input. A proved loop has to end, and nothing says that the input does: so it counts its turns, up to a
// number that no run uses up.
fn skip_rest(rt: &impl Input) {
    for _ in 0..u64::MAX {
        if !skip_some(rt) {
            break;
        }
    }
}

// A table file has at most 18,464 bytes, so the first 65,536 of a longer input have the same listing as the whole.
fn main(rt: HostRuntime) {
    let mut file = [0u8; 65536];
    let n = read_full(&rt, &mut file);
    if n == 65536 {
        skip_rest(&rt);
    }
    run_parts::show(&rt, &file[..n]);
}
