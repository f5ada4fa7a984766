ghost use Rattle.std.specs.Prelude.{◌≡◌, ◌+◌, ◌≤◌, length};
ghost use Rattle.words.specs.Words.{word};
ghost use Rattle.words.specs.Stepped.{stepped};
ghost use Rattle.dots.specs.Dot.{dot, RunReadable};

// The sum of A's word × B's word at `len` places, one after the other in both.
fn row_sum(a: &[u32], b: &[u32], i: usize, j: usize, len: usize) -> u32
    requires { (i + len ≤ length a.now) × (j + len ≤ length b.now) }
    ensures { result ≡ word 32 (dot len (λ k. i + k) a.now (λ k. j + k) b.now) }
{
    let mut sum: u32 = 0;
    for v in 0..len {
        sum = sum.wrapping_add(words::mul(a[i + v], b[j + v]));
    }
    sum
}

// The same where each place is a step from the one before.
// Stays a twin of row_sum: variable steps keep the compiler from a vector loop, and the contract of closures for the places would be longer than this.
fn stepped_sum(
    a: &[u32],
    b: &[u32],
    from_a: u64,
    from_b: u64,
    step_a: u64,
    step_b: u64,
    len: u32,
) -> u32
    requires { RunReadable len (stepped from_a step_a) (stepped from_b step_b) a.now b.now }
    ensures { result ≡ word 32 (dot len (stepped from_a step_a) a.now (stepped from_b step_b) b.now) }
{
    let mut i = from_a;
    let mut j = from_b;
    let mut sum: u32 = 0;
    for _v in 0..len {
        sum = sum.wrapping_add(words::mul(a[i as usize], b[j as usize]));
        i = i.wrapping_add(step_a);
        j = j.wrapping_add(step_b);
    }
    sum
}

// The sum along a run. Words that stand one after the other in both tensors are multiplied four at a time.
pub fn run_sum(
    a: &[u32],
    b: &[u32],
    from_a: u64,
    from_b: u64,
    step_a: u64,
    step_b: u64,
    len: u32,
) -> u32
    requires { RunReadable len (stepped from_a step_a) (stepped from_b step_b) a.now b.now }
    ensures { result ≡ word 32 (dot len (stepped from_a step_a) a.now (stepped from_b step_b) b.now) }
{
    if (step_a == 1) & ((step_b == 1) & (len > 0)) {
        return row_sum(a, b, from_a as usize, from_b as usize, len as usize);
    }
    stepped_sum(a, b, from_a, from_b, step_a, step_b, len)
}
