// A table file tested where it lies: its header, then its nodes and messages, read one by one from the bytes. No table and no pool is made of it.
#![tactic(auto)]

ghost use Rattle.std.specs.Prelude.{◌≡◌, ◌&&◌, ◌≤◌, length};
ghost use Rattle.rules.specs.declared.Pool.{Pool};
ghost use Rattle.table_type.specs.declared.Table.{Table};
ghost use Rattle.table_type.specs.Table.{ids_of, ring_of};
ghost use Rattle.table.specs.Valid.{nodes_fit, valid_of};
ghost use Rattle.file.specs.Load.{file_n, statuses_fit, file_table, file_pool, load_of};

use file_read::Fit;
use rules::{Refusal, Ring, Roster};
use table_valid::{Census, Whole};

// M, L and n of the header.
fn ring_in(file: &[u8]) -> Ring
    requires { 32 ≤ length file.now }
    ensures { result ≡ ring_of (file_table file.now) }
{
    let m = file_read::word(file, 0);
    let l = file_read::word(file, 1);
    let n = file_read::word(file, 2) as usize;
    Ring { m, l, n }
}

// Do the nodes obey their rules? Each id is above the one before it: low is the least that the next may be.
#[tactic(auto, using(file_read::proofs::Laws::fits_told))]
// Stays beside `table_valid::nodes_fit`: they share a loop of four lines, and a trait over a table and a file would be longer.
fn nodes_fit_in(file: Fit, all: Whole) -> bool
    requires { all.ring ≡ ring_of (file_table file.bytes.now) }
    ensures { result ≡ nodes_fit (file_table file.entry.bytes.now) }
{
    let mut low: u64 = 0;
    for s in 0..all.ring.n {
        let v = file_read::read_node(file.bytes, 32 + 64 * s);
        if !(table_valid::id_fits(all.ring, low, v.id) & table_valid::node_fits(all, s, v)) {
            return false;
        }
        low = (v.id as u64) + 1;
    }
    true
}

// The ids by slot, and 0 for a slot that is not listed.
#[tactic(auto, using(file_read::proofs::Laws::fits_told))]
fn ids_in(file: Fit, n: usize) -> [u32; 64]
    requires { n ≡ file_n file.bytes.now }
    ensures { result ≡ ids_of (file_table file.entry.bytes.now) }
{
    let mut ids = [0u32; 64];
    for s in 0..n {
        ids[s] = words::read(file.bytes, 32 + 64 * s);
    }
    ids
}

// Is every status one of 0 to 3, and are the table and the messages of the file valid?
#[tactic(auto, using(file_read::proofs::Laws::fits_told))]
fn records_fit(file: Fit) -> bool
    ensures { let bs = file.entry.bytes.now in result ≡ (statuses_fit bs && valid_of (file_table bs) (file_pool bs)) }
{
    if !file_read::statuses_fit(file.bytes) {
        return false;
    }
    let ring = ring_in(file.bytes);
    if !nodes_fit_in(file, Whole::of(ring)) {
        return false;
    }
    let ids = ids_in(file, ring.n);
    let roster = Roster { ring, ids };
    table_valid::pool_fits(&Census::of(roster), &file_read::messages(file))
}

// What a load of the file answers, whatever table and pool were there before, with a list of 256 places: 7, 8, 9, 10 or done.
// Stays, test by test, beside `file_read::load`, which answers a table and a pool, and asks 10 of the list between.
pub fn tested(file: &[u8]) -> Result<(), Refusal>
    ensures { (t : Table) → (p : Pool) → result ≡ (load_of file.now t p 256).answer }
{
    if file.len() < 32 {
        return Err(Refusal::Short);
    }
    if !file_read::header_fits(file) {
        return Err(Refusal::Header);
    }
    if !file_read::offsets_fit(file) {
        return Err(Refusal::Offsets);
    }
    if records_fit(Fit { bytes: file }) {
        Ok(())
    } else {
        Err(Refusal::Invalid)
    }
}
