ghost use Rattle.std.specs.Prelude.{◌≡◌, ◌+◌, ◌*◌, ◌<◌, ◌≤◌, length};
ghost use Rattle.words.specs.Words.{word};
ghost use Rattle.words.specs.Loops.{Within};
ghost use Rattle.limits.specs.Limits.{block_limit};
ghost use Rattle.kernel.specs.Kernel.{column_sum, ColumnSums};
ghost use Rattle.kernel.specs.KernelNeeds.{LanesSummable, Summable, RowSummable};

use lanes::lanes::add_scaled;
use limits::limits::Limits;

// A packed tile in the work slice: packed A's lanes are `rows` words wide, packed B's `cols`, and `depth` lanes of each are summed along.
#[derive(Clone, Copy)]
pub struct Packed<'a> {
    pub work: &'a [u32],
    pub rows: usize,
    pub cols: usize,
    pub depth: usize,
}

// Sums side by side, one for each of the first `count` words of a lane: lanes of `width` words from `base` on, each times one word. Those are `step` apart from
// `from` on.
fn lane_by_lane(
    work: &[u32],
    base: usize,
    width: usize,
    count: usize,
    from: usize,
    step: usize,
    depth: usize,
) -> [u32; Limits::BLOCK]
    requires { LanesSummable base width count from step depth (length work.now) }
    ensures { ColumnSums count (λ i. column_sum work.now width from step depth (base + i)) result }
{
    let mut sums = [0u32; Limits::BLOCK];
    for d in 0..depth {
        let by = work[from + step * d];
        add_scaled(&mut sums, work, base + width * d, count, by);
    }
    sums
}

// The sum of one row of a column.
fn row_sum(t: &Packed, r: usize, from: usize) -> u32
    requires { (r < t.now.rows) × (t.now.rows * t.now.depth ≤ length t.now.work.now)
        × Within t.now.depth (λ d. from + t.now.cols * d) (length t.now.work.now) }
    ensures { result ≡ word 32 (column_sum t.now.work.now t.now.rows from t.now.cols t.now.depth r) }
{
    let mut sum: u32 = 0;
    for d in 0..t.depth {
        let by = t.work[from + t.cols * d];
        sum = sum.wrapping_add(words::mul(t.work[t.rows * d + r], by));
    }
    sum
}

// The sums of a column one after the other.
fn row_by_row(t: &Packed, count: usize, from: usize) -> [u32; Limits::BLOCK]
    requires { Summable t.now.rows count from t.now.cols t.now.depth (length t.now.work.now) }
    ensures { ColumnSums count (column_sum t.now.work.now t.now.rows from t.now.cols t.now.depth) result }
{
    let mut sums = [0u32; Limits::BLOCK];
    for r in 0..count {
        sums[r] = row_sum(t, r, from);
    }
    sums
}

// The sums of one column of a tile, a sum for each of its `count` rows: packed A's lanes times the column's words of packed B, one in each lane from `from` on.
// Up to four rows are too few to gain by going side by side.
pub fn column(t: &Packed, count: usize, from: usize) -> [u32; Limits::BLOCK]
    requires { Summable t.now.rows count from t.now.cols t.now.depth (length t.now.work.now) }
    ensures { ColumnSums count (column_sum t.now.work.now t.now.rows from t.now.cols t.now.depth) result }
{
    if count > 4 {
        lane_by_lane(t.work, 0, t.rows, count, from, t.cols, t.depth)
    } else {
        row_by_row(t, count, from)
    }
}

// The sums of one row of a tile side by side, a sum for each of its `count` columns: packed B's lanes, from `behind` on, times the row's words of packed A, one
// in each lane from r on.
pub fn row_lanes(t: &Packed, behind: usize, count: usize, r: usize) -> [u32; Limits::BLOCK]
    requires { RowSummable t.now.rows behind t.now.cols count r t.now.depth (length t.now.work.now) }
    ensures { ColumnSums count
        (λ c. column_sum t.now.work.now t.now.rows (behind + c) t.now.cols t.now.depth r)
        result }
{
    lane_by_lane(t.work, behind, t.cols, count, r, t.rows, t.depth)
}
