// Words in bytes, the lowest byte first: read from a place, and written from a place on.
#![tactic(auto)]

ghost use Rattle.std.specs.Prelude.{◌≡◌, ℕ, ◌+◌, ◌≤◌, length, take, drop};
ghost use Rattle.words.specs.Bytes.{bytes_of, number_of};
ghost use Rattle.words.specs.InnerPut.{Put};

// A number of a fixed number of bytes.
pub trait Word: Copy {
    // How many bytes it takes.
    const SIZE: usize;

    ghost SIZE: { ℕ };

    ghost number: { Self → ℕ };

    // The word of its bytes, lowest first.
    fn from_bytes(bytes: &[u8]) -> Self
        requires { length bytes.now ≡ SIZE }
        ensures { number result ≡ number_of bytes.now };

    // Its bytes, lowest first, in place of what is there.
    fn to_bytes(self, bytes: &mut [u8])
        requires { length bytes.old ≡ SIZE }
        ensures { bytes.new ≡ bytes_of SIZE (number self) };
}

impl Word for u32 {
    const SIZE: usize = 4;

    ghost SIZE = { 4 };

    ghost number = { λ x. x };

    fn from_bytes(bytes: &[u8]) -> u32 {
        u32::from_le_bytes([bytes[0], bytes[1], bytes[2], bytes[3]])
    }

    fn to_bytes(self, bytes: &mut [u8]) {
        bytes.copy_from_slice(&self.to_le_bytes());
    }
}

impl Word for u64 {
    const SIZE: usize = 8;

    ghost SIZE = { 8 };

    ghost number = { λ x. x };

    fn from_bytes(bytes: &[u8]) -> u64 {
        u64::from_le_bytes([
            bytes[0], bytes[1], bytes[2], bytes[3], bytes[4], bytes[5], bytes[6], bytes[7],
        ])
    }

    fn to_bytes(self, bytes: &mut [u8]) {
        bytes.copy_from_slice(&self.to_le_bytes());
    }
}

// The word whose bytes, lowest first, begin at a place.
pub fn read<W: Word>(bs: &[u8], at: usize) -> W
    requires { at + W.SIZE ≤ length bs.now }
    ensures { W.number result ≡ number_of (take W.SIZE (drop at bs.now)) }
{
    W::from_bytes(&bs[at..at + W::SIZE])
}

// Writes the bytes of x, lowest first, and gives the place behind them.
pub fn write<W: Word>(b: &mut [u8], at: usize, x: W) -> usize
    requires { at + W.SIZE ≤ length b.old }
    ensures { Put W.SIZE b.old at (bytes_of W.SIZE (W.number x)) result b.new }
{
    let end = at + W::SIZE;
    x.to_bytes(&mut b[at..end]);
    end
}
