ghost use Rattle.std.specs.Prelude.{◌≡◌, ◌+◌, ◌≤◌, length};
ghost use Rattle.limits.specs.Limits.{block_limit};
ghost use Rattle.accumulate.specs.Added.{added_to, all_added};

use accumulate::accumulate::{Factors, add_each, added};
use limits::limits::Limits;

// The sums from place r on, added to n words of D one after the other, as the panel has it. A product takes many times as long as a sum where words are taken
// four at a time, so that none is made with a factor 1. A later panel has no beta, and takes the old words as they are, which 1 does too.
pub fn add_contiguous(
    d: &mut [u32],
    at: usize,
    n: usize,
    sums: &[u32; Limits::BLOCK],
    r: usize,
    f: Factors,
)
    requires { (at + n ≤ length d.old) × (r + n ≤ block_limit) }
    ensures { d.new ≡ all_added n (added_to f) sums.now r (λ k. at + k) d.old }
{
    match (f.alpha, f.beta.unwrap_or(1)) {
        (1, 1) => add_each(d, at, n, sums, r, |sum, old| old.wrapping_add(sum)),
        (alpha, 1) => add_each(
            d,
            at,
            n,
            sums,
            r,
            move |sum, old| old.wrapping_add(words::mul(alpha, sum)),
        ),
        (1, beta) => add_each(
            d,
            at,
            n,
            sums,
            r,
            move |sum, old| words::mul(beta, old).wrapping_add(sum),
        ),
        _ => add_each(d, at, n, sums, r, move |sum, old| added(f, sum, old)),
    }
}
