// What the programs print: the listing of a file, what an action left, and whether a table is settled.
#![tactic(auto)]

use face::Rest;
use std::fmt;
use table_type::Stepped;

// What an action left: 01's number of its answer, the statuses of the first `slots` nodes, and how many messages wait.
#[derive(Clone, Copy)]
pub struct Shown<'a> {
    pub left: &'a Stepped,
    pub slots: usize,
}

impl fmt::Display for Shown<'_> {
    fn fmt<W: fmt::Write>(&self, f: &mut fmt::Formatter<W>) -> fmt::Result {
        let s = self.left;
        write!(f, "{}, status", parts::answer_number(s.answer))?;
        for v in s.table.nodes.iter().take(self.slots) {
            write!(f, " {}", parts::status_number(v.status))?;
        }
        write!(f, ", waiting {}", s.pool.count)
    }
}

// Whether a table is settled, in words.
#[derive(Clone, Copy)]
pub struct Said(pub Rest);

impl fmt::Display for Said {
    fn fmt<W: fmt::Write>(&self, f: &mut fmt::Formatter<W>) -> fmt::Result {
        match self.0 {
            Ok(true) => write!(f, "settled"),
            Ok(false) => write!(f, "not settled"),
            Err(_) => write!(f, "not valid"),
        }
    }
}

// The listing of a file.
pub fn show(rt: &impl Print, file: &[u8]) {
    let mut out = [0u8; 65536];
    if let Ok(count) = file_list::list(file, &mut out) {
        let _ = rt.write_all(&out[..count]);
    }
}
