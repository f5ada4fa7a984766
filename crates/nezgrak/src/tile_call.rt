ghost use Rattle.std.specs.Prelude.{◌≡◌};
ghost use Rattle.contraction.specs.Operands.{three};
ghost use Rattle.tiled.specs.TileCall.{tile_call};
ghost use Rattle.flat.specs.FlatLayout.{flat_contraction};
ghost use Rattle.answers.specs.FlatTiles.{sizes_of, tiles_returned, flat_tiles};

use answers::status::status_of;
use answers::tile_answer::{complete_of, done_of};
use flat::contraction_of::contraction_of;
use tiled::call::run;
use tiles::grid::Sizes;

// The tiled engine: tiles from number `done` on, as many as the budget allows and are left.
#[unsafe(no_mangle)]
pub extern "C" fn nezgrak_run_tiles(
    a_layout: &[u32; 28],
    a: &[u32],
    b_layout: &[u32; 28],
    b: &[u32],
    d_layout: &[u32; 28],
    d: &mut [u32],
    alpha: u32,
    beta: u32,
    rows: u32,
    cols: u32,
    depth: u32,
    work: &mut [u32],
    done: u64,
    budget: u64,
    done_after: &mut u64,
    complete: &mut u32,
) -> u32
    ensures { tiles_returned result done_after.new complete.new d.new work.new
        ≡ flat_tiles (tile_call
        (flat_contraction a_layout.now b_layout.now d_layout.now alpha beta)
        (sizes_of rows cols depth)
        (three a.now b.now d.old)
        work.old done budget) }
{
    // C is not named: what stands in its place is not read.
    let k = contraction_of(a_layout, b_layout, d_layout, alpha, beta);
    let z = Sizes { rows, cols, depth };
    let outcome = run(k, z, a, b, a, d, work, done, budget);
    *done_after = done_of(outcome, done);
    *complete = complete_of(outcome);
    status_of(outcome)
}
