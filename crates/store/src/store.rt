ghost use Rattle.std.specs.Prelude.{◌≡◌, ◌+◌, ◌≤◌, length};
ghost use Rattle.words.specs.Loops.{Within};
ghost use Rattle.words.specs.Stepped.{stepped};
ghost use Rattle.limits.specs.Limits.{block_limit};
ghost use Rattle.block.specs.Places.{place_of, Measured};
ghost use Rattle.accumulate.specs.Added.{added_to, all_added, rows_added};

use accumulate::accumulate::{Factors, add_by_step, add_row};
use block::block::step_at;
use contiguous::contiguous::add_contiguous;
use limits::limits::Limits;

// The sums of a stretch, from place r on, added to n words of D; words one after the other need no step.
fn add_stretch(
    d: &mut [u32],
    at: u64,
    step: u64,
    n: usize,
    sums: &[u32; Limits::BLOCK],
    r: usize,
    f: Factors,
)
    requires { (1 ≤ n) × Within n (stepped at step) (length d.old) × (r + n ≤ block_limit) }
    ensures { d.new ≡ all_added n (added_to f) sums.now r (stepped at step) d.old }
{
    if step == 1 {
        add_contiguous(d, at as usize, n, sums, r, f);
    } else {
        add_by_step(d, at, step, n, sums, r, f);
    }
}

// The sums of a few rows of a column, added to D's words at their places: each is a stretch of one.
pub fn store_few(
    d: &mut [u32],
    from: u64,
    offsets: &[u64; Limits::BLOCK],
    count: usize,
    sums: &[u32; Limits::BLOCK],
    f: Factors,
)
    requires { (count ≤ block_limit) × Within count (place_of from offsets.now) (length d.old) }
    ensures { d.new ≡ rows_added count f sums.now from offsets.now d.old }
{
    for r in 0..count {
        add_row(d, from, offsets, sums, r, f);
    }
}

// The sums of a column, added to D's words at the places of its rows, stretch by stretch. Fewer than eight rows of a stretch are not worth a loop: they go two
// at a time, and the walk goes on by 2, which the processor need not wait for; a last row alone is a stretch of one.
pub fn store_column(
    d: &mut [u32],
    from: u64,
    offsets: &[u64; Limits::BLOCK],
    lengths: &[u8; Limits::BLOCK],
    count: usize,
    sums: &[u32; Limits::BLOCK],
    f: Factors,
)
    requires { (count ≤ block_limit)
        × Measured count offsets.now lengths.now
        × Within count (place_of from offsets.now) (length d.old) }
    ensures { d.new ≡ rows_added count f sums.now from offsets.now d.old }
{
    let mut r: usize = 0;
    // Stays a while: a turn goes on by two rows or by the n of a stretch; a for has no such step.
    while r + 1 < count {
        let n = usize::from(lengths[r]);
        if n < 8 {
            add_row(d, from, offsets, sums, r, f);
            add_row(d, from, offsets, sums, r + 1, f);
            r += 2;
        } else {
            let at = from.wrapping_add(offsets[r]);
            add_stretch(d, at, step_at(offsets, r), n, sums, r, f);
            r += n;
        }
    }
    if r < count {
        add_row(d, from, offsets, sums, r, f);
    }
}
