// Sets of nodes: the 64 marks of a u64, mark s for slot s. No function asks anything of its caller.
#![tactic(auto)]

ghost use Rattle.std.specs.Prelude.{◌≡◌};
ghost use Rattle.marks.specs.Marks.{has, single, union, meet, without, add_of, remove_of, size_of, lowest_of, listed};

// Is slot s in the set?
pub fn is_in(set: u64, s: usize) -> bool
    ensures { result ≡ has set s }
{
    if s < 64 {
        (set >> (s as u32)) % 2 == 1
    } else {
        false
    }
}

// The set of slot s alone; empty for a slot that no mark stands for.
pub fn of_one(s: usize) -> u64
    ensures { result ≡ single s }
{
    if s < 64 { 1u64 << (s as u32) } else { 0 }
}

pub fn joined(a: u64, b: u64) -> u64
    ensures { result ≡ union a b }
{
    a | b
}

pub fn both(a: u64, b: u64) -> u64
    ensures { result ≡ meet a b }
{
    a & b
}

pub fn less(a: u64, b: u64) -> u64
    ensures { result ≡ without a b }
{
    a & !b
}

pub fn added(a: u64, s: usize) -> u64
    ensures { result ≡ add_of a s }
{
    a | of_one(s)
}

pub fn removed(a: u64, s: usize) -> u64
    ensures { result ≡ remove_of a s }
{
    a & !of_one(s)
}

pub fn count(a: u64) -> u32
    ensures { result ≡ size_of a }
{
    a.count_ones()
}

// The least member, if there is one.
pub fn lowest(a: u64) -> Option<usize>
    ensures { result ≡ lowest_of a }
{
    if a == 0 {
        None
    } else {
        Some(a.trailing_zeros() as usize)
    }
}

// Is every member below n?
pub fn all_below(a: u64, n: usize) -> bool
    ensures { result ≡ listed n a }
{
    if n < 64 { a >> (n as u32) == 0 } else { true }
}
