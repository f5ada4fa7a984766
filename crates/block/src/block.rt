ghost use Rattle.std.specs.Prelude.{◌≡◌, ◌+◌, ◌<◌, ◌≤◌, min, if◌then◌else◌, nat_eq, slice_index};
ghost use Rattle.limits.specs.Limits.{block_limit};
ghost use Rattle.block.specs.Block.{block_step};
ghost use Rattle.block.specs.Stretches.{longest_from};
ghost use Rattle.block.specs.Places.{as_step, Measured, StepOf, BlockOf};

use limits::limits::Limits;

// The step of a block of offsets, each of which is the one before plus the step; scattered ones have none.
pub type Step = Option<u64>;

// The offsets of a block of rows or columns, as address words, beside their count and step; `lengths` has, for each place, how many offsets from there on
// form the longest even stretch.
#[derive(Clone, Copy)]
pub struct Block {
    pub offsets: [u64; Limits::BLOCK],
    pub lengths: [u8; Limits::BLOCK],
    pub count: usize,
    pub step: Step,
}

// The step from x to y.
fn step_from(x: u64, y: u64) -> u64
    ensures { StepOf x y result }
{
    y.wrapping_sub(x)
}

// The step from place i to the next; the last place of an array has none. It isn't `offsets.get(i + 1)`, since nothing bounds i here, and i + 1 could overflow.
pub fn step_at(offsets: &[u64; Limits::BLOCK], i: usize) -> u64
    ensures { i + 1 < block_limit → StepOf (slice_index offsets.now i) (slice_index offsets.now (i + 1)) result }
{
    if i < Limits::BLOCK - 1 {
        step_from(offsets[i], offsets[i + 1])
    } else {
        0
    }
}

// The length from a place on, where `next` is that from the next place on: one more where the step there is the same as after it, else two.
fn longer(next: u8, step: u64, after: u64) -> u8
    requires { next ≤ block_limit }
    ensures { result ≡ (if nat_eq step after then next + 1 else 2) }
{
    if step == after { next + 1 } else { 2 }
}

// The lengths from each place on of the first n offsets, from the last place to the first.
fn lengths_of(offsets: &[u64; Limits::BLOCK], n: usize) -> [u8; Limits::BLOCK]
    requires { n ≤ block_limit }
    ensures { Measured n offsets.now result }
{
    let mut lengths = [0u8; Limits::BLOCK];
    if n == 0 {
        return lengths;
    }
    let mut next = offsets[n - 1];
    let mut len: u8 = 1;
    let mut after: u64 = 0;
    lengths[n - 1] = len;
    for i in (0..n - 1).rev() {
        let at = offsets[i];
        let step = step_from(at, next);
        len = longer(len, step, after);
        lengths[i] = len;
        next = at;
        after = step;
    }
    lengths
}

// The step of the first n offsets, whose longest even beginning is `len` long.
fn step_of(offsets: &[u64; Limits::BLOCK], n: usize, len: usize) -> Step
    requires { (n ≤ block_limit) × (len ≡ longest_from n offsets.now 0) }
    ensures { as_step result ≡ block_step n offsets.now }
{
    if n < 2 {
        return Some(0);
    }
    let s = step_at(offsets, 0);
    if len < n {
        return None;
    }
    Some(s)
}

impl Block {
    // The block of the first `count` offsets; a count above the limit is read as the limit.
    pub fn of(offsets: [u64; Limits::BLOCK], count: usize) -> Block
        ensures { BlockOf count offsets result }
    {
        let n = count.min(Limits::BLOCK);
        let lengths = lengths_of(&offsets, n);
        let step = step_of(&offsets, n, usize::from(lengths[0]));
        Block {
            offsets,
            lengths,
            count: n,
            step,
        }
    }
}
