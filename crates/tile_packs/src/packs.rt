ghost use Rattle.std.specs.Prelude.{◌≡◌, ◌-◌, ◌*◌, ◌≤◌, length};
ghost use Rattle.tiles.specs.Grid.{cut_in, Fits};
ghost use Rattle.tile_blocks.specs.PlannedTiles.{Placed, SideBlock};
ghost use Rattle.tile_blocks.specs.Side.{Side, left, right, tensor_on, tile_on};
ghost use Rattle.tile_blocks.specs.TilePlaces.{Begins};
ghost use Rattle.tile_packs.specs.TilePacks.{packs, SideClear, side_lanes, side_packed, renewed, padded};

use block::block::Block;
use contraction::contraction::Operand;
use limits::limits::Limits;
use pack::pack::pack;
use pack::pad::pad;
use tile_blocks::planned_tile::PlannedTile;
use tiles::grid::{Grid, Tile, width_of};

// A side's block is packed at the front of a slice, a lane of its places for each depth count.
fn pack_side(
    t: PlannedTile,
    o: Operand,
    block: &Block,
    width: usize,
    words: &[u32],
    out: &mut [u32],
)
    ghost s: { Side }
    requires { Placed t
        × (o ≡ tensor_on s)
        × SideBlock t.plan.now (cut_in t.grid.now) t.at (tensor_on s) s block.now
        × (width ≡ tile_on (cut_in t.grid.now) s)
        × SideClear t.plan.now (cut_in t.grid.now) s (length words.now) (length out.old) }
    ensures { out.new ≡ side_lanes t.entry.plan.now (cut_in t.entry.grid.now) t.entry.at s words.now 0 out.old }
{
    let mut starts = [0u64; Limits::DEPTH];
    let filled = t.depth_starts(o, &mut starts);
    pack(words, &starts, filled, block, width, out);
}

// The first phase: A's block is packed, a lane of rows for each depth count.
pub fn pack_a(t: PlannedTile, a: &[u32], work: &mut [u32])
    requires { Placed t × SideClear t.plan.now (cut_in t.grid.now) left (length a.now) (length work.old) }
    ensures { work.new ≡ side_packed t.entry.plan.now (cut_in t.entry.grid.now) t.entry.at left a.now work.old }
{
    let o = Operand::A;
    let block = t.rows(o);
    pack_side(t, o, &block, t.grid.sizes.rows as usize, a, work);
}

// The second phase: B's block, a lane of columns for each depth count, in the part of the work slice behind A's. The tile before left it where both were run
// in one call and only the row block is another.
pub fn renew_b(t: PlannedTile, held: bool, b: &[u32], work: &mut [u32])
    requires { Placed t
        × (t.grid.now.sizes.rows * t.grid.now.sizes.depth ≤ length work.old)
        × SideClear t.plan.now (cut_in t.grid.now) right
        (length b.now)
        (length work.old - t.grid.now.sizes.rows * t.grid.now.sizes.depth) }
    ensures { work.new ≡ renewed t.entry.plan.now (cut_in t.entry.grid.now) t.entry.at held b.now work.old }
{
    if held & (0 < t.at.row) {
        return;
    }
    let sizes = t.grid.sizes;
    let behind = (sizes.rows as usize) * (sizes.depth as usize);
    let o = Operand::B;
    let block = t.columns(o);
    pack_side(t, o, &block, sizes.cols as usize, b, &mut work[behind..]);
}

// After the last tile of a call: zeros past the edges of both packed blocks.
pub fn pad_blocks(g: Grid, at: Tile, work: &mut [u32])
    requires { Fits (cut_in g) × Begins (cut_in g) at × (packs (cut_in g) ≤ length work.old) }
    ensures { work.new ≡ padded (cut_in g) at work.old }
{
    let counts = g.counts;
    let sizes = g.sizes;
    let rows = sizes.rows as usize;
    let cols = sizes.cols as usize;
    let depth = sizes.depth as usize;
    let filled = width_of(counts.depth, sizes.depth, at.panel) as usize;
    let behind = rows * depth;
    pad(
        work,
        width_of(counts.row, sizes.rows, at.row) as usize,
        filled,
        rows,
        depth,
    );
    pad(
        &mut work[behind..],
        width_of(counts.column, sizes.cols, at.column) as usize,
        filled,
        cols,
        depth,
    );
}
