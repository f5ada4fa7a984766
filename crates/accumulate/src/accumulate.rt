ghost use Rattle.std.specs.Prelude.{◌≡◌, ℕ, ◌+◌, ◌<◌, ◌≤◌, length, slice_index};
ghost use Rattle.words.specs.Loops.{put, Within};
ghost use Rattle.words.specs.Stepped.{stepped};
ghost use Rattle.limits.specs.Limits.{block_limit};
ghost use Rattle.block.specs.Places.{place_of};
ghost use Rattle.accumulate.specs.Added.{added_to, all_added};
ghost use Rattle.accumulate.specs.Changes.{Makes};

use limits::limits::Limits;

// What D's words become: alpha × a sum is added, in the first panel to beta × the old word. A later panel has no beta.
#[derive(Clone, Copy)]
pub struct Factors {
    pub alpha: u32,
    pub beta: Option<u32>,
}

// What a panel with a sum makes of a word of D.
pub fn added(f: Factors, sum: u32, old: u32) -> u32
    ensures { result ≡ added_to f sum old }
{
    let more = words::mul(f.alpha, sum);
    match f.beta {
        Some(beta) => words::mul(beta, old).wrapping_add(more),
        None => old.wrapping_add(more),
    }
}

// The sum of row r, added to D's word at its place.
pub fn add_row(
    d: &mut [u32],
    from: u64,
    offsets: &[u64; Limits::BLOCK],
    sums: &[u32; Limits::BLOCK],
    r: usize,
    f: Factors,
)
    requires { (r < block_limit) × (place_of from offsets.now r < length d.old) }
    ensures { d.new ≡ put (added_to f (slice_index sums.now r)) (place_of from offsets.now r) d.old }
{
    let place = from.wrapping_add(offsets[r]) as usize;
    d[place] = added(f, sums[r], d[place]);
}

// The sums from place r on, added to n words of D, each a step from the one before.
pub fn add_by_step(
    d: &mut [u32],
    at: u64,
    step: u64,
    n: usize,
    sums: &[u32; Limits::BLOCK],
    r: usize,
    f: Factors,
)
    requires { Within n (stepped at step) (length d.old) × (r + n ≤ block_limit) }
    ensures { d.new ≡ all_added n (added_to f) sums.now r (stepped at step) d.old }
{
    let mut at = at;
    for k in 0..n {
        let place = at as usize;
        d[place] = added(f, sums[r + k], d[place]);
        at = at.wrapping_add(step);
    }
}

// The sums from place r on, added to n words of D one after the other from `at` on: `change` makes the new word of a sum and the old one.
pub fn add_each<F: Fn(u32, u32) -> u32>(
    d: &mut [u32],
    at: usize,
    n: usize,
    sums: &[u32; Limits::BLOCK],
    r: usize,
    change: F,
)
    requires callable { F.IsAlwaysCallable change }
    requires inside { (at + n ≤ length d.old) × (r + n ≤ block_limit) }
    ensures { (made : ℕ → ℕ → ℕ)
        → Makes (F.post change) made
        → d.new ≡ all_added n made sums.now r (λ k. at + k) d.old }
{
    for k in 0..n {
        let sum = sums[r + k];
        let old = d[at + k];
        d[at + k] = change(sum, old);
    }
}
