ghost use Rattle.std.specs.Prelude.{◌≡◌, ◌+◌, ◌<◌, ◌≤◌, true, false, length, slice_index};
ghost use Rattle.words.specs.Words.{word};
ghost use Rattle.words.specs.Loops.{Within};
ghost use Rattle.limits.specs.Limits.{depth_limit};
ghost use Rattle.kernel.specs.Kernel.{ColumnSums};
ghost use Rattle.thin_sums.specs.LineSums.{ByOnes, LineOf};
ghost use Rattle.thin_sums.specs.Sides.{side_sum, SideSummable};

use block::block::Block;
use dots::dot::run_sum;
use lanes::lanes::add_times;
use limits::limits::Limits;

// Is each of the first n address words one past the word before?
pub fn by_ones(xs: &[u64], n: usize) -> bool
    requires { (0 < length xs.now) × (n ≤ length xs.now) }
    ensures { result ≡ true → ByOnes n xs.now }
{
    let mut at = xs[0];
    for x in &xs[..n] {
        if *x != at {
            return false;
        }
        at = at.wrapping_add(1);
    }
    true
}

// A side of a tile in its tensor: a block of places, and where it begins at each of the first `depth` depth counts.
#[derive(Clone, Copy)]
pub struct Side<'a> {
    pub src: &'a [u32],
    pub starts: &'a [u64; Limits::DEPTH],
    pub depth: usize,
    pub block: &'a Block,
}

// The words of a line, one for each of the first `depth` starts, `offset` past it.
pub fn line_words(x: &Side, offset: u64) -> [u32; Limits::DEPTH]
    requires { (x.now.depth ≤ depth_limit)
        × Within x.now.depth (λ k. word 64 (slice_index x.now.starts.now k + offset)) (length x.now.src.now) }
    ensures { LineOf x.now.depth x.now.src.now x.now.starts.now offset result }
{
    let src = x.src;
    let starts = x.starts;
    let mut line = [0u32; Limits::DEPTH];
    for k in 0..x.depth {
        let at = starts[k].wrapping_add(offset);
        line[k] = src[at as usize];
    }
    line
}

// The sums of a line side by side, where the places of the block stand one after the other: for each depth count the words there times one word of the line.
fn side_by_side(x: &Side, line: &[u32; Limits::DEPTH]) -> [u32; Limits::BLOCK]
    requires { ByOnes x.now.block.now.count x.now.block.now.offsets × SideSummable x.now }
    ensures { ColumnSums x.now.block.now.count (side_sum x.now line.now) result }
{
    let src = x.src;
    let starts = x.starts;
    let n = x.block.count;
    let mut sums = [0u32; Limits::BLOCK];
    for k in 0..x.depth {
        let at = starts[k].wrapping_add(x.block.offsets[0]);
        add_times(&mut sums, src, at, 1, n, line[k]);
    }
    sums
}

// The same one after the other, where the depth counts stand one after the other.
fn one_by_one(x: &Side, line: &[u32; Limits::DEPTH]) -> [u32; Limits::BLOCK]
    requires { ByOnes x.now.depth x.now.starts.now × SideSummable x.now }
    ensures { ColumnSums x.now.block.now.count (side_sum x.now line.now) result }
{
    let src = x.src;
    let block = x.block;
    let mut sums = [0u32; Limits::BLOCK];
    for r in 0..block.count {
        let at = x.starts[0].wrapping_add(block.offsets[r]);
        sums[r] = run_sum(src, line, at, 0, 1, 1, x.depth as u32);
    }
    sums
}

// The same by whichever loop suits.
pub fn line_sums(x: &Side, run: bool, line: &[u32; Limits::DEPTH]) -> [u32; Limits::BLOCK]
    requires { (run ≡ true → ByOnes x.now.depth x.now.starts.now)
        × (run ≡ false → ByOnes x.now.block.now.count x.now.block.now.offsets)
        × SideSummable x.now }
    ensures { ColumnSums x.now.block.now.count (side_sum x.now line.now) result }
{
    if run {
        one_by_one(x, line)
    } else {
        side_by_side(x, line)
    }
}
