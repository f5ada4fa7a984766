ghost use Rattle.std.specs.Prelude.{◌≡◌, true, ℕ, ◌≤◌, length};
ghost use Rattle.limits.specs.Limits.{block_limit};
ghost use Rattle.sums.specs.Walk.{over};
ghost use Rattle.four_sums.specs.FourRunSums.{begins_of, Shared};
ghost use Rattle.four_runs.specs.FourRuns.{four_of, AllFillable, Apart};

use contraction::contraction::Operand;
use four_sums::four_sums::{NextRuns, four_sums};
use limits::limits::Limits;
use output_block::output_block::store_run;
use output_words::output::Sources;
use sums::tabled::TabledWalk;
use sums::walk::Run;

// Do a run and the next three share what is read of A? A has to go word by word along a run, B to stand still, and A's address word to be the same for all.
pub fn shares(run: Run, next: NextRuns) -> bool
    ensures { result ≡ true → Shared (begins_of run next) run.step }
{
    let a = run.from.of(Operand::A);
    let along = (run.step.of(Operand::A) == 1) & (run.step.of(Operand::B) == 0);
    let same = (next.second.of(Operand::A) == a)
        & (next.third.of(Operand::A) == a)
        & (next.fourth.of(Operand::A) == a);
    along & same
}

// The words of D of a block's output counts and of the blocks of the next three runs, summed side by side.
fn fill_four_blocks(x: &Sources, d: &mut [u32], block: Run, next: NextRuns, depth: &TabledWalk)
    requires { (1 ≤ block.len)
        × (block.len ≤ block_limit)
        × Shared (begins_of block next) block.step
        × AllFillable x.now (over depth.now.walk) block next (length d.old) }
    ensures { d.new ≡ four_of x.now (over depth.now.walk) block next d.old }
{
    let mut s0 = [0u32; Limits::BLOCK];
    let mut s1 = [0u32; Limits::BLOCK];
    let mut s2 = [0u32; Limits::BLOCK];
    let mut s3 = [0u32; Limits::BLOCK];
    four_sums(
        &mut s0, &mut s1, &mut s2, &mut s3, x.a, x.b, block, next, depth,
    );
    let mut stored = block;
    store_run(x, d, &s0, stored);
    stored.from = next.second;
    store_run(x, d, &s1, stored);
    stored.from = next.third;
    store_run(x, d, &s2, stored);
    stored.from = next.fourth;
    store_run(x, d, &s3, stored);
}

// The words of D along a run of output counts and the next three, block by block.
pub fn fill_four(x: &Sources, d: &mut [u32], run: Run, next: NextRuns, depth: &TabledWalk)
    requires { Shared (begins_of run next) run.step
        × Apart run.len (begins_of run next) run.step
        × AllFillable x.now (over depth.now.walk) run next (length d.old) }
    ensures { d.new ≡ four_of x.now (over depth.now.walk) run next d.old }
{
    let leap = run.step.times(64);
    let mut at0 = run.from;
    let mut at1 = next.second;
    let mut at2 = next.third;
    let mut at3 = next.fourth;
    for v in (0..run.len).step_by(64) {
        let block = Run {
            from: at0,
            step: run.step,
            len: (run.len - v).min(64),
        };
        let others = NextRuns {
            second: at1,
            third: at2,
            fourth: at3,
        };
        fill_four_blocks(x, d, block, others, depth);
        at0 = at0.plus(leap);
        at1 = at1.plus(leap);
        at2 = at2.plus(leap);
        at3 = at3.plus(leap);
    }
}
