ghost use Rattle.std.specs.Prelude.{◌≡◌, ◌+◌, ◌*◌, ◌<◌, ◌≤◌, length, slice_index, slice_set};
ghost use Rattle.words.specs.Words.{word};
ghost use Rattle.words.specs.Loops.{Within};
ghost use Rattle.words.specs.Stepped.{stepped};
ghost use Rattle.limits.specs.Limits.{block_limit};
ghost use Rattle.lanes.specs.LaneProducts.{products_added, scaled, spread, products};

use limits::limits::Limits;

// A product of two words added to one of the sums.
pub fn add_at(sums: &mut [u32; Limits::BLOCK], r: usize, a: u32, by: u32)
    requires { r < block_limit }
    ensures { sums.new ≡ slice_set sums.old r (word 32 (slice_index sums.old r + word 32 (a * by))) }
{
    sums[r] = sums[r].wrapping_add(words::mul(a, by));
}

// To each of n sums the product of a word and `by`: words one after the other.
pub fn add_scaled(sums: &mut [u32; Limits::BLOCK], x: &[u32], from: usize, n: usize, by: u32)
    requires { (n ≤ block_limit) × (from + n ≤ length x.now) }
    ensures { sums.new ≡ products_added n (scaled x.now from by) sums.old }
{
    for r in 0..n {
        let w = x[from + r];
        add_at(sums, r, w, by);
    }
}

// The same where each word is a step from the one before.
// Stays a twin of add_scaled: a variable step keeps the compiler from a vector loop, and the contract of a closure for the place would be longer than this.
fn add_spread(sums: &mut [u32; Limits::BLOCK], x: &[u32], from: u64, step: u64, n: usize, by: u32)
    requires { (n ≤ block_limit) × Within n (stepped from step) (length x.now) }
    ensures { sums.new ≡ products_added n (spread x.now from step by) sums.old }
{
    let mut at = from;
    for r in 0..n {
        let w = x[at as usize];
        add_at(sums, r, w, by);
        at = at.wrapping_add(step);
    }
}

// The same by whichever loop suits the step.
pub fn add_times(
    sums: &mut [u32; Limits::BLOCK],
    x: &[u32],
    from: u64,
    step: u64,
    n: usize,
    by: u32,
)
    requires { (1 ≤ n) × (n ≤ block_limit) × Within n (stepped from step) (length x.now) }
    ensures { sums.new ≡ products_added n (spread x.now from step by) sums.old }
{
    if step == 1 {
        add_scaled(sums, x, from as usize, n, by);
    } else {
        add_spread(sums, x, from, step, n, by);
    }
}

// To each of n sums the product of a word of A and a word of B, in both one after the other.
fn add_paired(sums: &mut [u32; Limits::BLOCK], a: &[u32], b: &[u32], i: usize, j: usize, n: usize)
    requires { (n ≤ block_limit) × (i + n ≤ length a.now) × (j + n ≤ length b.now) }
    ensures { sums.new
        ≡ products_added n (λ r. slice_index a.now (i + r) * slice_index b.now (j + r)) sums.old }
{
    for r in 0..n {
        let w = a[i + r];
        let by = b[j + r];
        add_at(sums, r, w, by);
    }
}

// To each of n sums the product of a word of A and a word of B, in each a step from the one before.
// Stays a twin of add_paired: variable steps keep the compiler from a vector loop, and the contract of closures for the places would be longer than this.
fn add_stepped(
    sums: &mut [u32; Limits::BLOCK],
    a: &[u32],
    b: &[u32],
    from_a: u64,
    from_b: u64,
    step_a: u64,
    step_b: u64,
    n: usize,
)
    requires { (n ≤ block_limit)
        × Within n (stepped from_a step_a) (length a.now)
        × Within n (stepped from_b step_b) (length b.now) }
    ensures { sums.new
        ≡ products_added n (products a.now from_a step_a b.now from_b step_b) sums.old }
{
    let mut i = from_a;
    let mut j = from_b;
    for r in 0..n {
        let w = a[i as usize];
        let by = b[j as usize];
        add_at(sums, r, w, by);
        i = i.wrapping_add(step_a);
        j = j.wrapping_add(step_b);
    }
}

// The same by whichever loop suits the steps.
pub fn add_products(
    sums: &mut [u32; Limits::BLOCK],
    a: &[u32],
    b: &[u32],
    i: u64,
    j: u64,
    step_a: u64,
    step_b: u64,
    n: usize,
)
    requires { (1 ≤ n)
        × (n ≤ block_limit)
        × Within n (stepped i step_a) (length a.now)
        × Within n (stepped j step_b) (length b.now) }
    ensures { sums.new
        ≡ products_added n (products a.now i step_a b.now j step_b) sums.old }
{
    if step_a == 1 {
        if step_b == 1 {
            add_paired(sums, a, b, i as usize, j as usize, n);
            return;
        }
    }
    add_stepped(sums, a, b, i, j, step_a, step_b, n);
}
