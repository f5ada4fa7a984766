ghost use Rattle.std.specs.Prelude.{◌≡◌};
ghost use Rattle.contraction.specs.Operands.{four};
ghost use Rattle.answers.specs.StateAnswer.{state_answer};
ghost use Rattle.answers.specs.TileAnswer.{tile_answer, tile_call_of};
ghost use Rattle.tiled.specs.TileCall.{tile_call, state_call};

use accept::accept::{Accept, accepted};
use answers::tile_answer::Ran;
use contraction::contraction::{Contraction, Lengths};
use one_tile::tile::TiledCall;
use refusals::refusal::Refusal;
use tile_questions::tile_refusals::{state_refusal, tile_refusal};
use tiles::grid::{Sizes, State};
use tiling::run_tiles::run_tiles;

// Questions 1 to 12; where all pass, the smaller of the budget and what is left of the tiles is run. A refusal changes no word.
pub fn run(
    k: Contraction,
    z: Sizes,
    a: &[u32],
    b: &[u32],
    c: &[u32],
    d: &mut [u32],
    work: &mut [u32],
    done: u64,
    budget: u64,
) -> Result<Ran, Refusal>
    ensures { tile_call_of (tile_answer done result) d.new work.new
        ≡ tile_call k z (four a.now b.now c.now d.old) work.old done budget }
{
    let n = Lengths {
        a: a.len(),
        b: b.len(),
        c: c.len(),
        d: d.len(),
    };
    let lists = accepted(&k, z, n)?;
    let x = Accept::from_lists(&k, z, &lists);
    let g = x.grid;
    tile_refusal(g, work.len(), done)?;
    let total = g.total;
    let left = total - done;
    let count = budget.min(left);
    let call = TiledCall {
        plan: &x.plan,
        grid: &g,
        alpha: k.alpha,
        beta: k.beta,
        a,
        b,
        c: k.c.is_some().then_some(c),
    };
    let t = run_tiles(call, d, work, done, count);
    let ran = Ran {
        done: t,
        complete: t == total,
    };
    Ok(ran)
}

// Questions 1 to 10, 12 and 13; where all pass, the state of the output index of three counts after `done` tiles.
pub fn state(
    k: Contraction,
    z: Sizes,
    a: &[u32],
    b: &[u32],
    c: &[u32],
    d: &[u32],
    done: u64,
    h: u64,
    i: u64,
    j: u64,
) -> Result<State, Refusal>
    ensures { state_answer result ≡ state_call k z (four a.now b.now c.now d.now) done h i j }
{
    let n = Lengths {
        a: a.len(),
        b: b.len(),
        c: c.len(),
        d: d.len(),
    };
    let lists = accepted(&k, z, n)?;
    let x = Accept::from_lists(&k, z, &lists);
    let g = x.grid;
    state_refusal(g, done, h, i, j)?;
    Ok(g.state(done, h, i, j))
}
