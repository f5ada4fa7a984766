ghost use Rattle.std.specs.Prelude.{◌≡◌, ◌+◌, ◌*◌, ◌≤◌, map, length};
ghost use Rattle.words.specs.Words.{signed};
ghost use Rattle.little_endian.specs.Bytes.{has, little, numbers};

// A place in a job file.
#[derive(Clone, Copy)]
pub struct Cursor {
    pub at: usize,
}

impl Cursor {
    // Are n bytes there, from this place on?
    pub fn has(self, file: &[u8], n: usize) -> bool
        requires { self.at ≤ length file.now }
        ensures { result ≡ has file.now self.at n }
    {
        n <= file.len() - self.at
    }
}

// The number of two bytes, the least significant first.
pub fn two_bytes(file: &[u8], at: usize) -> u16
    requires { at + 2 ≤ length file.now }
    ensures { result ≡ little file.now 2 at }
{
    u16::from_le_bytes([file[at], file[at + 1]])
}

// The number of four bytes, the least significant first.
pub fn four_bytes(file: &[u8], at: usize) -> u32
    requires { at + 4 ≤ length file.now }
    ensures { result ≡ little file.now 4 at }
{
    u32::from_le_bytes([file[at], file[at + 1], file[at + 2], file[at + 3]])
}

// Three loops and not one over a closure that reads a number: each closure would repeat `at + .. ≤ length` and what it reads in clauses of its own.

// Fills `out` with numbers of a byte each, from `at` on.
pub fn read_bytes(file: &[u8], at: usize, out: &mut [u32])
    requires { at + length out.old ≤ length file.now }
    ensures { out.new ≡ numbers file.now 1 (length out.old) at }
{
    for i in 0..out.len() {
        out[i] = u32::from(file[at + i]);
    }
}

// Fills `out` with numbers of four bytes each, from `at` on.
pub fn read_words(file: &[u8], at: usize, out: &mut [u32])
    requires { at + 4 * length out.old ≤ length file.now }
    ensures { out.new ≡ numbers file.now 4 (length out.old) at }
{
    for i in 0..out.len() {
        out[i] = four_bytes(file, at + 4 * i);
    }
}

// Fills `out` with signed numbers of four bytes each, from `at` on.
pub fn read_signed(file: &[u8], at: usize, out: &mut [i32])
    requires { at + 4 * length out.old ≤ length file.now }
    ensures { out.new ≡ map (signed 32) (numbers file.now 4 (length out.old) at) }
{
    for i in 0..out.len() {
        out[i] = words::signed(four_bytes(file, at + 4 * i));
    }
}
