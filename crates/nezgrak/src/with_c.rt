ghost use Rattle.std.specs.Prelude.{◌≡◌};
ghost use Rattle.contraction.specs.Operands.{four};
ghost use Rattle.plain.specs.PlainCall.{plain_call};
ghost use Rattle.tiled.specs.TileCall.{tile_call, state_call};
ghost use Rattle.flat.specs.FlatLayout.{flat_contraction_with_c};
ghost use Rattle.answers.specs.FlatPlain.{returned, flat};
ghost use Rattle.answers.specs.FlatTiles.{sizes_of, tiles_returned, flat_tiles};
ghost use Rattle.answers.specs.FlatState.{state_returned, flat_state};

use answers::state_answer::state_after;
use answers::status::status_of;
use answers::tile_answer::{complete_of, done_of};
use flat::contraction_of::contraction_with_c;
use plain::call::contract;
use tiled::call::{run, state as state_of};
use tiles::grid::Sizes;

// The plain engine with C: D becomes alpha × the sum over the labels that D lacks of A × B + beta × C.
#[unsafe(no_mangle)]
pub extern "C" fn nezgrak_contract_with_c(
    a_layout: &[u32; 28],
    a: &[u32],
    b_layout: &[u32; 28],
    b: &[u32],
    c_layout: &[u32; 28],
    c: &[u32],
    d_layout: &[u32; 28],
    d: &mut [u32],
    alpha: u32,
    beta: u32,
) -> u32
    ensures { returned result d.new
        ≡ flat (plain_call
        (flat_contraction_with_c a_layout.now b_layout.now c_layout.now d_layout.now alpha beta)
        (four a.now b.now c.now d.old)) }
{
    let k = contraction_with_c(a_layout, b_layout, c_layout, d_layout, alpha, beta);
    status_of(contract(k, a, b, c, d))
}

// The tiled engine with C: panel 0 puts beta × C's entry in place of beta × old.
#[unsafe(no_mangle)]
pub extern "C" fn nezgrak_run_tiles_with_c(
    a_layout: &[u32; 28],
    a: &[u32],
    b_layout: &[u32; 28],
    b: &[u32],
    c_layout: &[u32; 28],
    c: &[u32],
    d_layout: &[u32; 28],
    d: &mut [u32],
    alpha: u32,
    beta: u32,
    rows: u32,
    cols: u32,
    depth: u32,
    work: &mut [u32],
    done: u64,
    budget: u64,
    done_after: &mut u64,
    complete: &mut u32,
) -> u32
    ensures { tiles_returned result done_after.new complete.new d.new work.new
        ≡ flat_tiles (tile_call
        (flat_contraction_with_c a_layout.now b_layout.now c_layout.now d_layout.now alpha beta)
        (sizes_of rows cols depth)
        (four a.now b.now c.now d.old)
        work.old done budget) }
{
    let k = contraction_with_c(a_layout, b_layout, c_layout, d_layout, alpha, beta);
    let z = Sizes { rows, cols, depth };
    let outcome = run(k, z, a, b, c, d, work, done, budget);
    *done_after = done_of(outcome, done);
    *complete = complete_of(outcome);
    status_of(outcome)
}

// The state of the output index of a batch, a row and a column count after `done` tiles of a contraction with C.
#[unsafe(no_mangle)]
pub extern "C" fn nezgrak_state_with_c(
    a_layout: &[u32; 28],
    a: &[u32],
    b_layout: &[u32; 28],
    b: &[u32],
    c_layout: &[u32; 28],
    c: &[u32],
    d_layout: &[u32; 28],
    d: &[u32],
    alpha: u32,
    beta: u32,
    rows: u32,
    cols: u32,
    depth: u32,
    done: u64,
    batch: u64,
    row: u64,
    column: u64,
    state: &mut u32,
) -> u32
    ensures { state_returned result state.new
        ≡ flat_state state.old (state_call
        (flat_contraction_with_c a_layout.now b_layout.now c_layout.now d_layout.now alpha beta)
        (sizes_of rows cols depth)
        (four a.now b.now c.now d.now)
        done batch row column) }
{
    let k = contraction_with_c(a_layout, b_layout, c_layout, d_layout, alpha, beta);
    let z = Sizes { rows, cols, depth };
    let found = state_of(k, z, a, b, c, d, done, batch, row, column);
    *state = state_after(found, *state);
    status_of(found)
}
