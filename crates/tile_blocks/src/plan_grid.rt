ghost use Rattle.std.specs.Prelude.{◌≡◌};
ghost use Rattle.tile_blocks.specs.Planned.{GridOf, PlanFits};

use plan::plan::Plan;
use tiles::grid::{Counts, Grid, Sizes};

// The grid of a plan's groups.
pub fn grid_of(p: &Plan, z: Sizes) -> Grid
    requires { PlanFits p.now z }
    ensures { GridOf p.now result × (result.sizes ≡ z) }
{
    let counts = Counts {
        batch: p.groups.batch.size_from(0),
        row: p.groups.row.size_from(0),
        column: p.groups.column.size_from(0),
        depth: p.groups.depth.size_from(0),
    };
    Grid::of(counts, z)
}
