// Requests of what waits for a node.
use super::told;
use super::told::Reply;
use counts::{After, Counted};

// A table of no node, for which nothing waits: what a file is loaded over.
fn nothing() -> Counted {
    Counted {
        table: table_parts::no_table(),
        pool: table_parts::no_messages(),
        counts: [0u32; 64],
    }
}

// What waits for a node of the table of a file, where it loads.
fn first_in(loaded: After, slot: usize, out: &mut [u8]) -> Reply {
    let answer = loaded.answer;
    let x = loaded.counted;
    match answer {
        Ok(()) => told::tell_first(over_counts::first_message(x, 256, slot), out),
        Err(why) => told::refused_by(why),
    }
}

// A slot, and a table file.
pub fn ask_waiting(rest: &[u8], out: &mut [u8]) -> Reply {
    if rest.len() < 8 {
        return told::malformed();
    }
    let slot = words::read::<u64>(rest, 0) as usize;
    first_in(over_counts::load(&rest[8..], nothing(), 256), slot, out)
}
