// 32-bit words and 64-bit address words: the leaves that all other crates compute with.
#![tactic(auto)]

ghost use Rattle.std.specs.Prelude.{◌≡◌, ◌*◌, ◌%◌, ◌^◌};
ghost use Rattle.words.specs.Words.{up, down, word_of, signed};

// The product of two words, modulo 2^32.
pub fn mul(a: u32, b: u32) -> u32
    ensures { result ≡ a * b % 2 ^ 32 }
{
    a.wrapping_mul(b)
}

// A number times an address word, modulo 2^64.
pub fn scale(n: u32, x: u64) -> u64
    ensures { result ≡ n * x % 2 ^ 64 }
{
    u64::from(n).wrapping_mul(x)
}

// A signed 32-bit stride as a 64-bit address word, two's complement.
pub fn address_word(s: i32) -> u64
    ensures { result ≡ word_of 64 s }
{
    i64::from(s).cast_unsigned()
}

// A 32-bit word read as signed.
pub fn signed(x: u32) -> i32
    ensures { result ≡ signed 32 x }
{
    x.cast_signed()
}

// How far an address word, read as signed, goes up.
pub fn up(x: u64) -> u64
    ensures { result ≡ up (signed 64 x) }
{
    x.cast_signed().max(0).cast_unsigned()
}

// How far an address word, read as signed, goes down. Not one function with `up`: each is a line of its own.
pub fn down(x: u64) -> u64
    ensures { result ≡ down (signed 64 x) }
{
    x.cast_signed().min(0).unsigned_abs()
}
