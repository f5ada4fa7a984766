ghost use Rattle.std.specs.Prelude.{◌≡◌, true, ◌-◌, ◌<◌, ◌≤◌, length, is_some};
ghost use Rattle.tiles.specs.Cut.{total};
ghost use Rattle.tiles.specs.Grid.{cut_in};
ghost use Rattle.tiles.specs.Setting.{tile_step};
ghost use Rattle.tile_blocks.specs.Planned.{GridOf, Clear};
ghost use Rattle.tile_blocks.specs.Side.{right};
ghost use Rattle.tile_packs.specs.TilePacks.{packs};
ghost use Rattle.phases.specs.Phases.{words_of_c};
ghost use Rattle.one_tile.specs.HeldPacks.{Holds, AfterTile};
ghost use Rattle.one_tile.specs.TiledCalls.{call_setting};

use phases::phases::{multiply_into_d, start_from_c};
use plan::plan::Plan;
use thin_tile::thin::{is_thin, thin_tile};
use tile_blocks::planned_tile::PlannedTile;
use tile_packs::packs::{pack_a, renew_b};
use tiles::grid::Grid;

// What the tiles of a call are made from: the plan and its grid, the factors, and the words of A, of B and, where it is named, of C.
#[derive(Clone, Copy)]
pub struct TiledCall<'a> {
    pub plan: &'a Plan,
    pub grid: &'a Grid,
    pub alpha: u32,
    pub beta: u32,
    pub a: &'a [u32],
    pub b: &'a [u32],
    pub c: Option<&'a [u32]>,
}

// One tile, in four phases: the sums start from C where it is named, A's block is packed, B's block right after it, and the product goes to D. Where the tile
// before was packed in the same call, its block of B is held in the work slice: it is the same one but where a new strip of row blocks begins. The work slice
// is seen only after the call, so that a thin tile that is not its last one need not be packed: was this one?
pub fn run_tile(
    k: TiledCall,
    d: &mut [u32],
    work: &mut [u32],
    n: u64,
    held: bool,
    last: bool,
) -> bool
    requires { GridOf k.plan.now k.grid.now
        × (n < total (cut_in k.grid.now))
        × Clear k.plan.now (cut_in k.grid.now) (is_some k.c)
        (length k.a.now) (length k.b.now) (length (words_of_c k.c)) (length d.old)
        × (packs (cut_in k.grid.now) ≤ length work.old)
        × (held ≡ true → Holds k.plan.now (cut_in k.grid.now) k.a.now k.b.now right (n - 1) work.old) }
    ensures { (d.new ≡ tile_step (call_setting k.entry) n d.old)
        × AfterTile k.entry.plan.now (cut_in k.entry.grid.now) k.entry.a.now k.entry.b.now n last result work.old work.new }
{
    let t = PlannedTile {
        plan: k.plan,
        grid: k.grid,
        at: k.grid.tile(n),
    };
    start_from_c(t, k.c, d);
    let thin = is_thin(t) & !last;
    if thin && thin_tile(t, k.alpha, k.beta, k.a, k.b, d) {
        return false;
    }
    pack_a(t, k.a, work);
    renew_b(t, held, k.b, work);
    multiply_into_d(t, k.alpha, k.beta, work, d);
    true
}
