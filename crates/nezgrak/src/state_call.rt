ghost use Rattle.std.specs.Prelude.{◌≡◌};
ghost use Rattle.contraction.specs.Operands.{three};
ghost use Rattle.tiled.specs.TileCall.{state_call};
ghost use Rattle.answers.specs.FlatTiles.{sizes_of};
ghost use Rattle.flat.specs.FlatLayout.{flat_contraction};
ghost use Rattle.answers.specs.FlatState.{state_returned, flat_state};

use answers::state_answer::state_after;
use answers::status::status_of;
use flat::contraction_of::contraction_of;
use tiled::call::state as state_of;
use tiles::grid::Sizes;

// The state of the output index of a batch, a row and a column count after `done` tiles.
#[unsafe(no_mangle)]
pub extern "C" fn nezgrak_state(
    a_layout: &[u32; 28],
    a: &[u32],
    b_layout: &[u32; 28],
    b: &[u32],
    d_layout: &[u32; 28],
    d: &[u32],
    alpha: u32,
    beta: u32,
    rows: u32,
    cols: u32,
    depth: u32,
    done: u64,
    batch: u64,
    row: u64,
    column: u64,
    state: &mut u32,
) -> u32
    ensures { state_returned result state.new
        ≡ flat_state state.old (state_call
        (flat_contraction a_layout.now b_layout.now d_layout.now alpha beta)
        (sizes_of rows cols depth)
        (three a.now b.now d.now)
        done batch row column) }
{
    // C is not named: what stands in its place is not read.
    let k = contraction_of(a_layout, b_layout, d_layout, alpha, beta);
    let z = Sizes { rows, cols, depth };
    let found = state_of(k, z, a, b, a, d, done, batch, row, column);
    *state = state_after(found, *state);
    status_of(found)
}
