ghost use Rattle.std.specs.Prelude.{◌≡◌, ◌+◌, ◌<◌, ◌≤◌, length};
ghost use Rattle.words.specs.Loops.{each, Within};
ghost use Rattle.limits.specs.Limits.{block_limit};
ghost use Rattle.block.specs.Places.{place_of, Measured};
ghost use Rattle.accumulate.specs.Added.{rows_added};
ghost use Rattle.columns.specs.LineStores.{place_past, lines_stored, LinesMultipliable};

use accumulate::accumulate::Factors;
use block::block::Block;
use block::place::next_place;
use four_columns::columns::four_columns;
use kernel::kernel::Packed;
use limits::limits::Limits;
use store::store::{store_column, store_few};

// The sizes of a packed tile, and how many of its lanes are filled.
#[derive(Clone, Copy)]
pub struct Packing {
    pub rows: usize,
    pub cols: usize,
    pub depth: usize,
    pub filled: usize,
}

// Where a tile's sums go in D: where the tile begins, its rows and its columns.
#[derive(Clone, Copy)]
pub struct Lines<'a> {
    pub from: u64,
    pub rows: &'a Block,
    pub columns: &'a Block,
}

// Adds a column's sums to D's words, from the column's place `at` on; the place of column `next`, the one after it.
pub fn store_next(
    d: &mut [u32],
    at: u64,
    t: &Lines,
    next: usize,
    sums: &[u32; Limits::BLOCK],
    f: Factors,
) -> u64
    requires { (t.now.rows.now.count ≤ block_limit)
        × Measured t.now.rows.now.count t.now.rows.now.offsets t.now.rows.now.lengths
        × Within t.now.rows.now.count (place_of at t.now.rows.now.offsets) (length d.old) }
    ensures { (d.new ≡ rows_added t.now.rows.now.count f sums.now at t.now.rows.now.offsets d.old)
        × (result ≡ place_past at t.now next) }
{
    store_column(
        d,
        at,
        &t.rows.offsets,
        &t.rows.lengths,
        t.rows.count,
        sums,
        f,
    );
    next_place(at, t.from, &t.columns.offsets, t.columns.step, next)
}

// The same. A call is not worth it for up to four rows.
pub fn store_one(
    d: &mut [u32],
    at: u64,
    t: &Lines,
    next: usize,
    sums: &[u32; Limits::BLOCK],
    f: Factors,
) -> u64
    requires { (t.now.rows.now.count ≤ block_limit)
        × Measured t.now.rows.now.count t.now.rows.now.offsets t.now.rows.now.lengths
        × Within t.now.rows.now.count (place_of at t.now.rows.now.offsets) (length d.old) }
    ensures { (d.new ≡ rows_added t.now.rows.now.count f sums.now at t.now.rows.now.offsets d.old)
        × (result ≡ place_past at t.now next) }
{
    if t.rows.count > 4 {
        return store_next(d, at, t, next, sums, f);
    }
    store_few(d, at, &t.rows.offsets, t.rows.count, sums, f);
    next_place(at, t.from, &t.columns.offsets, t.columns.step, next)
}

// Multiplies the packed blocks for column c and the three after it, and adds the sums to D's words, from the place `at` of column c on; the place of the
// column after them.
pub fn next_four(
    work: &[u32],
    d: &mut [u32],
    mut at: u64,
    t: &Lines,
    c: usize,
    p: Packing,
    f: Factors,
) -> u64
    requires { (c + 4 ≤ t.now.columns.now.count) × (at ≡ place_of t.now.from t.now.columns.now.offsets c)
        × LinesMultipliable t.now p (length d.old) (length work.now) }
    ensures { (d.new ≡ each 4 (λ q. lines_stored work.now p f t.now (c + q)) d.old)
        × (c + 4 < t.now.columns.now.count
        → result ≡ place_of t.now.from t.now.columns.now.offsets (c + 4)) }
{
    let tile = Packed {
        work,
        rows: p.rows,
        cols: p.cols,
        depth: p.filled,
    };
    let s = four_columns(&tile, t.rows.count, p.rows * p.depth + c);
    at = store_next(d, at, t, c + 1, &s.first, f);
    at = store_next(d, at, t, c + 2, &s.second, f);
    at = store_next(d, at, t, c + 3, &s.third, f);
    store_next(d, at, t, c + 4, &s.fourth, f)
}

// The same for column c and the seven after it. `next_four` has two callers, so that it is compiled apart from the loop over tiles: inside that loop what the
// stores keep in vector registers takes those of the kernel.
pub fn next_eight(
    work: &[u32],
    d: &mut [u32],
    at: u64,
    t: &Lines,
    c: usize,
    p: Packing,
    f: Factors,
) -> u64
    requires { (c + 8 ≤ t.now.columns.now.count) × (at ≡ place_of t.now.from t.now.columns.now.offsets c)
        × LinesMultipliable t.now p (length d.old) (length work.now) }
    ensures { (d.new ≡ each 8 (λ q. lines_stored work.now p f t.now (c + q)) d.old)
        × (c + 8 < t.now.columns.now.count
        → result ≡ place_of t.now.from t.now.columns.now.offsets (c + 8)) }
{
    let middle = next_four(work, d, at, t, c, p, f);
    next_four(work, d, middle, t, c + 4, p, f)
}
