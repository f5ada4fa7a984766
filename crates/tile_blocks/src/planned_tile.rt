ghost use Rattle.std.specs.Prelude.{◌≡◌, ◌*◌, ◌<◌};
ghost use Rattle.groups.specs.Groups.{depth};
ghost use Rattle.groups.specs.Held.{labels_in};
ghost use Rattle.plan.specs.Plan.{planned};
ghost use Rattle.tiles.specs.Cut.{width};
ghost use Rattle.tiles.specs.Grid.{cut_in};
ghost use Rattle.tile_blocks.specs.Planned.{at_batch};
ghost use Rattle.tile_blocks.specs.Side.{left, right};
ghost use Rattle.tile_blocks.specs.TilePlaces.{Starts};
ghost use Rattle.tile_blocks.specs.PlannedTiles.{Placed, SideBlock};

use super::tile_places::{at_batch, cut_block, panel_starts};
use block::block::Block;
use contraction::contraction::Operand;
use limits::limits::Limits;
use plan::plan::Plan;
use tiles::grid::{Grid, Tile, width_of};

// A tile of a plan's grid, and where it stands.
#[derive(Clone, Copy)]
pub struct PlannedTile<'a> {
    pub plan: &'a Plan,
    pub grid: &'a Grid,
    pub at: Tile,
}

impl PlannedTile<'_> {
    // A tensor's address at the tile's batch count.
    pub fn start(self, o: Operand) -> u64
        requires { Placed self }
        ensures { result ≡ at_batch self.entry.plan.now self.entry.at.batch o }
    {
        at_batch(self.plan.base, &self.plan.groups.batch, o, self.at.batch)
    }

    // In one tensor, the block of the tile's rows.
    pub fn rows(self, o: Operand) -> Block
        requires { Placed self }
        ensures { SideBlock self.entry.plan.now (cut_in self.entry.grid.now) self.entry.at o left result }
    {
        let g = self.grid;
        cut_block(
            &self.plan.groups.row,
            o,
            g.counts.row,
            g.sizes.rows,
            self.at.row,
        )
    }

    // In one tensor, the block of the tile's columns. Not one function with that of the rows: it would take group, count, size and place by a side.
    pub fn columns(self, o: Operand) -> Block
        requires { Placed self }
        ensures { SideBlock self.entry.plan.now (cut_in self.entry.grid.now) self.entry.at o right result }
    {
        let g = self.grid;
        cut_block(
            &self.plan.groups.column,
            o,
            g.counts.column,
            g.sizes.cols,
            self.at.column,
        )
    }

    // How many depth counts the tile's panel has.
    pub fn filled(self) -> usize
        requires { Placed self }
        ensures { result ≡ width self.entry.grid.now.counts.depth self.entry.grid.now.sizes.depth self.entry.at.panel }
    {
        width_of(self.grid.counts.depth, self.grid.sizes.depth, self.at.panel) as usize
    }

    // In one tensor, where each depth count of the tile's panel begins; how many there are.
    pub fn depth_starts(self, o: Operand, starts: &mut [u64; Limits::DEPTH]) -> usize
        requires { Placed self }
        ensures { (result ≡ width self.entry.grid.now.counts.depth self.entry.grid.now.sizes.depth self.entry.at.panel)
            × Starts o (at_batch self.entry.plan.now self.entry.at.batch o) (labels_in (planned self.entry.plan.now depth))
            (self.entry.at.panel * self.entry.grid.now.sizes.depth) result starts.new }
    {
        let g = self.grid;
        let from = self.start(o);
        panel_starts(
            &self.plan.groups.depth,
            o,
            from,
            g.counts.depth,
            g.sizes.depth,
            self.at.panel,
            starts,
        )
    }
}
