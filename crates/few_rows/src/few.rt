ghost use Rattle.std.specs.Prelude.{◌≡◌, ℕ, ◌+◌, ◌*◌, ◌<◌, ◌≤◌, length};
ghost use Rattle.words.specs.Loops.{each};
ghost use Rattle.limits.specs.Limits.{block_limit};
ghost use Rattle.block.specs.Places.{as_step};
ghost use Rattle.kernel.specs.KernelNeeds.{RowSummable};
ghost use Rattle.columns.specs.LineStores.{lines_stored};
ghost use Rattle.columns.specs.Stored.{tile_sum};
ghost use Rattle.few_rows.specs.FewSums.{FewSums, ColumnTaken, RowPut, FewMultipliable};

use accumulate::accumulate::Factors;
use block::place::next_place;
use columns::column_stores::{Lines, Packing};
use kernel::kernel::{Packed, row_lanes};
use limits::limits::Limits;
use store::store::store_few;

// The sums of row r put at their places: that of column c at 4 × c + r.
fn put_row(few: &mut [u32; 4 * Limits::BLOCK], r: usize, sums: &[u32; Limits::BLOCK], n: usize)
    requires { (r < 4) × (n ≤ block_limit) × (length few.old ≡ 4 * block_limit) }
    ensures { RowPut r n sums.now few.old few.new }
{
    for c in 0..n {
        few[4 * c + r] = sums[c];
    }
}

// The sums of m rows, each along n columns.
fn sums_of_rows(work: &[u32], m: usize, n: usize, p: Packing) -> [u32; 4 * Limits::BLOCK]
    requires { (m ≤ 4)
        × ((r : ℕ) → r < m → RowSummable p.rows (p.rows * p.depth) p.cols n r p.filled (length work.now)) }
    ensures { FewSums m n (tile_sum work.now p) result }
{
    let mut few = [0u32; 4 * Limits::BLOCK];
    let tile = Packed {
        work,
        rows: p.rows,
        cols: p.cols,
        depth: p.filled,
    };
    for r in 0..m {
        let sums = row_lanes(&tile, p.rows * p.depth, n, r);
        put_row(&mut few, r, &sums, n);
    }
    few
}

// Those of column c at the front.
fn take_column(few: &[u32; 4 * Limits::BLOCK], c: usize, sums: &mut [u32; Limits::BLOCK])
    requires { (c < block_limit) × (length sums.old ≡ block_limit) }
    ensures { ColumnTaken c few.now sums.old sums.new }
{
    for r in 0..4 {
        sums[r] = few[4 * c + r];
    }
}

// Multiplies the packed blocks of a tile of up to four rows, row by row along its columns, and adds each column to D's words.
pub fn few_rows(work: &[u32], d: &mut [u32], t: &Lines, p: Packing, f: Factors)
    requires { FewMultipliable t.now.from t.now.rows.now.offsets t.now.rows.now.count t.now.columns.now.offsets
        t.now.columns.now.count (as_step t.now.columns.now.step) p (length d.old) (length work.now) }
    ensures { d.new ≡ each t.now.columns.now.count (lines_stored work.now p f t.now) d.old }
{
    let columns = t.columns;
    let few = sums_of_rows(work, t.rows.count, columns.count, p);
    let mut sums = [0u32; Limits::BLOCK];
    let mut at = t.from.wrapping_add(columns.offsets[0]);
    for c in 0..columns.count {
        take_column(&few, c, &mut sums);
        store_few(d, at, &t.rows.offsets, t.rows.count, &sums, f);
        at = next_place(at, t.from, &columns.offsets, columns.step, c + 1);
    }
}
