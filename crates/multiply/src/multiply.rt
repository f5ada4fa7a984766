ghost use Rattle.std.specs.Prelude.{◌≡◌, ◌+◌, length};
ghost use Rattle.words.specs.Loops.{each};
ghost use Rattle.block.specs.Places.{as_step};
ghost use Rattle.columns.specs.Stored.{column_stored};
ghost use Rattle.columns.specs.ColumnNeeds.{Multipliable};
ghost use Rattle.columns.specs.LineStores.{lines_stored, LinesMultipliable};

use accumulate::accumulate::Factors;
use block::block::Block;
use columns::column_stores::{Lines, Packing, next_eight, next_four, store_one};
use few_rows::few::few_rows;
use kernel::kernel::{Packed, column};

// Multiplies the packed blocks and adds each column to D's words: eight or four columns at a time where there are as many, and rows enough to gain by it.
fn all_columns(work: &[u32], d: &mut [u32], t: &Lines, p: Packing, f: Factors)
    requires { LinesMultipliable t.now p (length d.old) (length work.now) }
    ensures { d.new ≡ each t.now.columns.now.count (lines_stored work.now p f t.now) d.old }
{
    let tile = Packed {
        work,
        rows: p.rows,
        cols: p.cols,
        depth: p.filled,
    };
    let rows = t.rows.count;
    let count = t.columns.count;
    let mut at = t.from.wrapping_add(t.columns.offsets[0]);
    let mut c: usize = 0;
    // Stays a while: a turn goes on by eight columns, four or one; a for has no such step.
    while c < count {
        if (rows > 4) & (count - c >= 8) {
            at = next_eight(work, d, at, t, c, p, f);
            c += 8;
        } else if (rows > 4) & (count - c >= 4) {
            at = next_four(work, d, at, t, c, p, f);
            c += 4;
        } else {
            let sums = column(&tile, rows, p.rows * p.depth + c);
            at = store_one(d, at, t, c + 1, &sums, f);
            c += 1;
        }
    }
}

// The same for a block of rows and a block of columns.
pub fn multiply(
    work: &[u32],
    d: &mut [u32],
    from: u64,
    row: Block,
    col: Block,
    p: Packing,
    f: Factors,
)
    requires { Multipliable from row.offsets row.lengths row.count col.offsets col.count
        (as_step col.step) p (length d.old) (length work.now) }
    ensures { d.new
        ≡ each col.count (column_stored work.now p f from col.offsets row.offsets row.count)
        d.old }
{
    let t = Lines {
        from,
        rows: &row,
        columns: &col,
    };
    if (row.count <= 4) & (col.count > 4) {
        few_rows(work, d, &t, p, f);
    } else {
        all_columns(work, d, &t, p, f);
    }
}
