ghost use Rattle.std.specs.Prelude.{◌≡◌, cond, ◌*◌, ◌<◌, length};
ghost use Rattle.groups.specs.Groups.{depth};
ghost use Rattle.groups.specs.Held.{labels_in};
ghost use Rattle.plan.specs.Plan.{planned};
ghost use Rattle.tiles.specs.Grid.{cut_in, Fits};
ghost use Rattle.tile_blocks.specs.Planned.{at_batch};
ghost use Rattle.tile_blocks.specs.PlannedTiles.{Placed};
ghost use Rattle.tile_blocks.specs.TilePlaces.{Begins, Starts};
ghost use Rattle.tile_packs.specs.TilePacks.{panel_width};
ghost use Rattle.thin_tile.specs.ThinTile.{is_thin, TileClear, tile_added};

use accumulate::accumulate::Factors;
use contraction::contraction::Operand;
use limits::limits::Limits;
use thin_lines::thin_lines::thin_lines;
use tile_blocks::planned_tile::PlannedTile;
use tiles::grid::width_of;

// Is a tile worth it: thin, and deep enough that packing costs more than the set-up?
pub fn is_thin(t: PlannedTile) -> bool
    requires { Fits (cut_in t.grid.now) × Begins (cut_in t.grid.now) t.at }
    ensures { result ≡ is_thin (cut_in t.entry.grid.now) t.entry.at }
{
    let counts = t.grid.counts;
    let sizes = t.grid.sizes;
    let rows = width_of(counts.row, sizes.rows, t.at.row);
    let columns = width_of(counts.column, sizes.cols, t.at.column);
    let filled = width_of(counts.depth, sizes.depth, t.at.panel);
    ((rows <= 4) | (columns <= 4)) & (filled >= 8)
}

// Where each depth count of a tile's panel begins in a tensor.
fn starts_in(t: PlannedTile, o: Operand) -> [u64; Limits::DEPTH]
    requires { Placed t }
    ensures { Starts o (at_batch t.entry.plan.now t.entry.at.batch o) (labels_in (planned t.entry.plan.now depth))
        (t.entry.at.panel * t.entry.grid.now.sizes.depth) (panel_width (cut_in t.entry.grid.now) t.entry.at) result }
{
    let mut starts = [0u64; Limits::DEPTH];
    t.depth_starts(o, &mut starts);
    starts
}

// The product of a thin tile's blocks goes to D without packing, where the words of its long side stand one after the other: was it done?
pub fn thin_tile(t: PlannedTile, alpha: u32, beta: u32, a: &[u32], b: &[u32], d: &mut [u32]) -> bool
    requires { Placed t × TileClear t.plan.now (cut_in t.grid.now) (length a.now) (length b.now) (length d.old) }
    ensures { d.new
        ≡ cond result (tile_added t.entry.plan.now (cut_in t.entry.grid.now) t.entry.at alpha beta a.now b.now d.old) d.old }
{
    let rows = t.rows(Operand::A);
    let cols = t.columns(Operand::B);
    let down = t.rows(Operand::D);
    let across = t.columns(Operand::D);
    let in_a = starts_in(t, Operand::A);
    let in_b = starts_in(t, Operand::B);
    let to = t.start(Operand::D);
    let deep = t.filled();
    let f = Factors {
        alpha,
        beta: (t.at.panel == 0).then_some(beta),
    };
    if cols.count <= 4 {
        thin_lines(a, b, &in_a, &in_b, deep, rows, cols, d, to, down, across, f)
    } else {
        thin_lines(b, a, &in_b, &in_a, deep, cols, rows, d, to, across, down, f)
    }
}
