// Text in bytes: a byte, a text, or a number in decimal digits, written into a buffer from a place on; each gives the place behind what it wrote.
// Stays by hand: `write!` says of no byte where it stands, and the contract here says it of each; a library has no heap for a String.
#![tactic(auto)]

ghost use Rattle.std.specs.Prelude.{[], ◌∷◌, ◌++◌, ◌+◌, ◌≤◌, length};
ghost use Rattle.text.specs.Decimal.{decimal};
ghost use Rattle.text.specs.InnerPrints.{Prints};

// Writes one byte.
pub fn put_byte(b: &mut [u8], at: usize, x: u8) -> usize
    requires { at + 1 ≤ length b.old }
    ensures { Prints b.old at (x ∷ []) result b.new }
{
    b[at] = x;
    at + 1
}

// Writes a text.
pub fn put_text(b: &mut [u8], at: usize, text: &[u8]) -> usize
    requires { at + length text.now ≤ length b.old }
    ensures { Prints b.old at text.now result b.new }
{
    let end = at + text.len();
    b[at..end].copy_from_slice(text);
    end
}

// Writes a number in decimal digits: those of its tenth, and its last.
pub fn put_number(b: &mut [u8], at: usize, x: u32) -> usize
    requires { at + length (decimal x) ≤ length b.old }
    ensures { Prints b.old at (decimal x) result b.new }
{
    if x < 10 {
        return put_byte(b, at, b'0' + x as u8);
    }
    let next = put_number(b, at, x / 10);
    put_byte(b, next, b'0' + (x % 10) as u8)
}

// Writes a number, and the byte that ends its field.
pub fn put_field(b: &mut [u8], at: usize, x: u32, mark: u8) -> usize
    requires { at + length (decimal x) + 1 ≤ length b.old }
    ensures { Prints b.old at (decimal x ++ (mark ∷ [])) result b.new }
{
    let next = put_number(b, at, x);
    put_byte(b, next, mark)
}
