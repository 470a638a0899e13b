// Lists the table files on standard input, one after the other, until it ends: of each the line `file N` and its listing. A file is led by its
// length, a little-endian word of 32 bits. A file of more than 65,536 bytes, or one that is cut short, ends the run.
#![tactic(auto)]

use std::io::Read;

// Stays beside run_listing: what the two share is crate run_parts, and this one reads many files of a length that is led.
fn title(rt: &impl Print, number: u64) {
    let _ = println!(rt; "file {number}");
}

// The next length, where the input does not end.
fn next_length(rt: &impl Input) -> Option<usize> {
    let mut head = [0u8; 4];
    rt.reader().read_exact(&mut head).ok()?;
    Some(words::read::<u32>(&head, 0) as usize)
}

// Lists the next file, where there is one.
fn list_next(rt: &(impl Input + Print), body: &mut [u8], number: u64) -> Option<()> {
    let n = next_length(rt)?;
    if n > body.len() {
        return None;
    }
    rt.reader().read_exact(&mut body[..n]).ok()?;
    title(rt, number);
    run_parts::show(rt, &body[..n]);
    Some(())
}

fn list_all(rt: &(impl Input + Print), body: &mut [u8]) -> Option<()> {
    for number in 0..u64::MAX {
        list_next(rt, body, number)?;
    }
    Some(())
}

fn main(rt: HostRuntime) {
    let mut body = [0u8; 65536];
    let _ = list_all(&rt, &mut body);
}
