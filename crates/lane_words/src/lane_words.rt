ghost use Rattle.std.specs.Prelude.{◌≡◌, ◌+◌, ◌≤◌, length, slice_index};
ghost use Rattle.words.specs.Loops.{Within};
ghost use Rattle.words.specs.Stepped.{stepped};
ghost use Rattle.words.specs.Fronts.{stored};
ghost use Rattle.limits.specs.Limits.{block_limit};

// One word or two, the second a step from the first, stored from `to` on.
fn pack_short(src: &[u32], at: u64, step: u64, n: usize, out: &mut [u32], to: usize)
    requires { (1 ≤ n) × (n ≤ 2) × Within n (stepped at step) (length src.now) × (to + n ≤ length out.old) }
    ensures { out.new ≡ stored n (λ k. slice_index src.now (stepped at step k)) to out.old }
{
    out[to] = src[at as usize];
    if n == 2 {
        let next = at.wrapping_add(step);
        out[to + 1] = src[next as usize];
    }
}

// n words one after the other from `at` on, stored from `to` on. A loop and no `copy_from_slice`, which is C's `memmove` where it is compiled into the
// archive: that needs `memcpy` and `memset` from outside, and no more.
fn copy(src: &[u32], at: usize, n: usize, out: &mut [u32], to: usize)
    requires { (at + n ≤ length src.now) × (to + n ≤ length out.old) }
    ensures { out.new ≡ stored n (λ k. slice_index src.now (at + k)) to out.old }
{
    for k in 0..n {
        out[to + k] = src[at + k];
    }
}

// n words, each a step from the one before, stored from `to` on.
fn gather(src: &[u32], at: u64, step: u64, n: usize, out: &mut [u32], to: usize)
    requires { Within n (stepped at step) (length src.now) × (to + n ≤ length out.old) }
    ensures { out.new ≡ stored n (λ k. slice_index src.now (stepped at step k)) to out.old }
{
    let mut place = at;
    for k in 0..n {
        out[to + k] = src[place as usize];
        place = place.wrapping_add(step);
    }
}

// The words of a stretch in one lane. One or two are not worth a loop, and words in a row need no step.
pub fn pack_words(src: &[u32], at: u64, step: u64, n: usize, out: &mut [u32], to: usize)
    requires { (1 ≤ n) × (n ≤ block_limit) × Within n (stepped at step) (length src.now) × (to + n ≤ length out.old) }
    ensures { out.new ≡ stored n (λ k. slice_index src.now (stepped at step k)) to out.old }
{
    if n < 3 {
        pack_short(src, at, step, n, out, to);
    } else if step == 1 {
        copy(src, at as usize, n, out, to);
    } else {
        gather(src, at, step, n, out, to);
    }
}
