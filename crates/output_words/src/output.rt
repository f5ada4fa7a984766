ghost use Rattle.std.specs.Prelude.{◌≡◌, ◌<◌, ◌≤◌, true, length, slice_index, is_some};
ghost use Rattle.words.specs.Loops.{each, put, Within};
ghost use Rattle.words.specs.Stepped.{stepped};
ghost use Rattle.limits.specs.Limits.{block_limit};
ghost use Rattle.meaning.specs.Meaning.{start_of, combined};
ghost use Rattle.output_words.specs.StartWords.{words_of};

use limits::limits::Limits;

// What the words of D are made from: the words of A, of B, and of C where it is named, and the factors of a sum and of what it starts from.
#[derive(Clone, Copy)]
pub struct Sources<'a> {
    pub a: &'a [u32],
    pub b: &'a [u32],
    pub c: Option<&'a [u32]>,
    pub alpha: u32,
    pub beta: u32,
}

// alpha × a sum + beta × what it starts from.
pub fn combine(alpha: u32, sum: u32, beta: u32, start: u32) -> u32
    ensures { result ≡ combined alpha beta sum start }
{
    words::mul(alpha, sum).wrapping_add(words::mul(beta, start))
}

// What a sum starts from: C's word at an address where C is named, else the old word.
pub fn start_of(c: Option<&[u32]>, at: u64, old: u32) -> u32
    requires { is_some c ≡ true → at < length (words_of c) }
    ensures { result ≡ start_of (is_some c.entry) (slice_index (words_of c.entry) at) old }
{
    match c {
        Some(words) => words[at as usize],
        None => old,
    }
}

// The sums of a block of n outputs, each combined with what it starts from and stored: D's places are a step apart, and so are C's where it is named.
pub fn store_block(
    x: &Sources,
    d: &mut [u32],
    sums: &[u32; Limits::BLOCK],
    n: usize,
    from_c: u64,
    from_d: u64,
    step_c: u64,
    step_d: u64,
)
    requires { (n ≤ block_limit)
        × (is_some x.now.c ≡ true → Within n (stepped from_c step_c) (length (words_of x.now.c)))
        × Within n (stepped from_d step_d) (length d.old) }
    ensures { d.new
        ≡ each n
        (λ r. put
        (λ old. combined x.now.alpha x.now.beta (slice_index sums.now r)
        (start_of (is_some x.now.c) (slice_index (words_of x.now.c) (stepped from_c step_c r)) old))
        (stepped from_d step_d r))
        d.old }
{
    // Copies: read from `x` in the loop, they might be words of D that it writes, and the compiler reads them anew for each output.
    let Sources { c, alpha, beta, .. } = *x;
    let mut at_c = from_c;
    let mut at_d = from_d;
    for r in 0..n {
        let place = at_d as usize;
        let start = start_of(c, at_c, d[place]);
        d[place] = combine(alpha, sums[r], beta, start);
        at_c = at_c.wrapping_add(step_c);
        at_d = at_d.wrapping_add(step_d);
    }
}
