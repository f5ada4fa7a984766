ghost use Rattle.std.specs.Prelude.{◌≡◌, true, length, ◌≤◌, is_some};
ghost use Rattle.contraction.specs.declared.contraction.Operand.TheVariants.{C, D};
ghost use Rattle.tiles.specs.Grid.{cut_in};
ghost use Rattle.tile_blocks.specs.PlannedTiles.{Placed};
ghost use Rattle.tile_packs.specs.TilePacks.{packs};
ghost use Rattle.phases.specs.Phases.{words_of_c, OutputClear, from_c, begun, Multiplied};

use accumulate::accumulate::Factors;
use columns::column_stores::Packing;
use contraction::contraction::Operand;
use copy::copy::copy_tile;
use multiply::multiply::multiply;
use tile_blocks::planned_tile::PlannedTile;

// The words of C in a tile, put at the tile's places in D.
fn copy_c(t: PlannedTile, c: &[u32], d: &mut [u32])
    requires { Placed t
        × OutputClear t.plan.now (cut_in t.grid.now) C (length c.now)
        × OutputClear t.plan.now (cut_in t.grid.now) D (length d.old) }
    ensures { d.new ≡ from_c t.entry.plan.now (cut_in t.entry.grid.now) t.entry.at c.now d.old }
{
    let from = t.start(Operand::C);
    let rows = t.rows(Operand::C);
    let cols = t.columns(Operand::C);
    let to = t.start(Operand::D);
    let down = t.rows(Operand::D);
    let across = t.columns(Operand::D);
    copy_tile(c, from, &rows, &cols, d, to, &down, &across);
}

// The third phase: where C is named, the sums of the first panel start from its words, which are put at the tile's places in D.
pub fn start_from_c(t: PlannedTile, c: Option<&[u32]>, d: &mut [u32])
    requires { Placed t
        × (is_some c ≡ true → OutputClear t.plan.now (cut_in t.grid.now) C (length (words_of_c c)))
        × OutputClear t.plan.now (cut_in t.grid.now) D (length d.old) }
    ensures { d.new ≡ begun t.entry.plan.now (cut_in t.entry.grid.now) t.entry.at (is_some c.entry) (words_of_c c.entry) d.old }
{
    if let Some(words) = c {
        if t.at.panel == 0 {
            copy_c(t, words, d);
        }
    }
}

// The fourth phase: the product of the packed blocks goes to D.
pub fn multiply_into_d(t: PlannedTile, alpha: u32, beta: u32, work: &[u32], d: &mut [u32])
    requires { Placed t
        × OutputClear t.plan.now (cut_in t.grid.now) D (length d.old)
        × (packs (cut_in t.grid.now) ≤ length work.now) }
    ensures { Multiplied t.entry.plan.now (cut_in t.entry.grid.now) t.entry.at alpha beta work.now d.old d.new }
{
    let from = t.start(Operand::D);
    let rows = t.rows(Operand::D);
    let columns = t.columns(Operand::D);
    let sizes = t.grid.sizes;
    let packing = Packing {
        rows: sizes.rows as usize,
        cols: sizes.cols as usize,
        depth: sizes.depth as usize,
        filled: t.filled(),
    };
    let factors = Factors {
        alpha,
        beta: (t.at.panel == 0).then_some(beta),
    };
    multiply(work, d, from, rows, columns, packing, factors);
}
