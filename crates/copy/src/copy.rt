ghost use Rattle.std.specs.Prelude.{◌≡◌, ◌≤◌, length, slice_index};
ghost use Rattle.words.specs.Loops.{each, overwrite, Within};
ghost use Rattle.limits.specs.Limits.{block_limit};
ghost use Rattle.block.specs.Places.{place_of};
ghost use Rattle.copy.specs.Copied.{column_copied};
ghost use Rattle.copy.specs.CopyNeeds.{Copyable};

use block::block::Block;
use limits::limits::Limits;

// The words of a column of C, from its place `from` on, put at the places of the same column of D, from its place `to` on.
fn copy_column(
    c: &[u32],
    from: u64,
    rows: &[u64; Limits::BLOCK],
    d: &mut [u32],
    to: u64,
    down: &[u64; Limits::BLOCK],
    count: usize,
)
    requires { (count ≤ block_limit)
        × Within count (place_of from rows.now) (length c.now)
        × Within count (place_of to down.now) (length d.old) }
    ensures { d.new
        ≡ overwrite count (place_of to down.now) (λ r. slice_index c.now (place_of from rows.now r))
        d.old }
{
    for r in 0..count {
        let source = from.wrapping_add(rows[r]);
        let place = to.wrapping_add(down[r]);
        d[place as usize] = c[source as usize];
    }
}

// The words of a block of rows and a block of columns of C, put at the places of the same rows and columns of D.
pub fn copy_tile(
    c: &[u32],
    from: u64,
    rows: &Block,
    cols: &Block,
    d: &mut [u32],
    to: u64,
    down: &Block,
    across: &Block,
)
    requires { Copyable from rows.now cols.now to down.now across.now (length c.now) (length d.old) }
    ensures { d.new
        ≡ each across.now.count (column_copied c.now from rows.now cols.now to down.now across.now) d.old }
{
    for b in 0..across.count {
        let source = from.wrapping_add(cols.offsets[b]);
        let place = to.wrapping_add(across.offsets[b]);
        copy_column(
            c,
            source,
            &rows.offsets,
            d,
            place,
            &down.offsets,
            down.count,
        );
    }
}
