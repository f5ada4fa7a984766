ghost use Rattle.std.specs.Prelude.{◌≡◌, ◌≤◌, length};
ghost use Rattle.limits.specs.Limits.{block_limit};
ghost use Rattle.sums.specs.Walk.{over};
ghost use Rattle.output_run.specs.FilledOutput.{run_of, RunFillable};

use contraction::contraction::Operand;
use offsets::offsets::Offsets;
use output_block::output_block::fill_block;
use output_run::output_run::fill_run;
use output_words::output::Sources;
use sums::tabled::TabledWalk;
use sums::walk::Run;

// How many outputs to sum side by side: fewer where they are apart in A or B, since each then takes a line of the cache.
fn width_of(step: Offsets) -> u32
    ensures { (1 ≤ result) × (result ≤ block_limit) }
{
    if (step.of(Operand::A) < 2) & (step.of(Operand::B) < 2) {
        64
    } else {
        16
    }
}

// The words of D along a run of output counts, block by block. How many outputs are left is counted and not worked out from `v`: the compiler would work a
// block's length out anew for each loop of the block.
fn fill_blocks(x: &Sources, d: &mut [u32], run: Run, depth: &TabledWalk)
    requires { RunFillable x.now (over depth.now.walk) run (length d.old) }
    ensures { d.new ≡ run_of x.now (over depth.now.walk) run d.old }
{
    let width = width_of(run.step);
    let leap = run.step.times(width);
    let mut at = run.from;
    let mut left = run.len;
    for _v in (0..run.len).step_by(width as usize) {
        let block = Run {
            from: at,
            step: run.step,
            len: left.min(width),
        };
        fill_block(x, d, block, depth);
        at = at.plus(leap);
        left -= block.len;
    }
}

// Is a word more than 16 words from the one before, forward or back?
fn far(step: u64) -> bool {
    step.wrapping_add(15) > 30
}

// Does it pay to sum outputs side by side? Not for a few, not where A and B both go word by word along a long run of depth counts, and not where a tensor goes
// far both from output to output and from depth count to depth count: no line of the cache is then used twice.
fn side_by_side(len: u32, step: Offsets, inner: Offsets, run: u32) -> bool {
    let in_rows = (inner.of(Operand::A) == 1) & (inner.of(Operand::B) == 1);
    let far_a = far(step.of(Operand::A)) & far(inner.of(Operand::A));
    let far_b = far(step.of(Operand::B)) & far(inner.of(Operand::B));
    (len > 7) & (!(in_rows & (run > 7)) & !(far_a | far_b))
}

// The same, block by block or one output after the other, whichever suits. A test and no closure: the choice is made once for a run, by its lengths and steps,
// and both functions have one contract, so that a closure would only move this test to each caller.
pub fn fill_outputs(x: &Sources, d: &mut [u32], run: Run, depth: &TabledWalk)
    requires { RunFillable x.now (over depth.now.walk) run (length d.old) }
    ensures { d.new ≡ run_of x.now (over depth.now.walk) run d.old }
{
    if side_by_side(run.len, run.step, depth.walk.step, depth.walk.len) {
        fill_blocks(x, d, run, depth);
    } else {
        fill_run(x, d, run, depth);
    }
}
