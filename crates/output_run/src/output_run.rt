ghost use Rattle.std.specs.Prelude.{◌≡◌, length};
ghost use Rattle.sums.specs.Walk.{over};
ghost use Rattle.output_run.specs.FilledOutput.{run_of, RunFillable};

use contraction::contraction::Operand;
use output_words::output::{Sources, combine, start_of};
use sums::sum::depth_sum;
use sums::tabled::TabledWalk;
use sums::walk::Run;

// The words of D along a run of output counts, one after the other. C is read where it is named.
pub fn fill_run(x: &Sources, d: &mut [u32], run: Run, depth: &TabledWalk)
    requires { RunFillable x.now (over depth.now.walk) run (length d.old) }
    ensures { d.new ≡ run_of x.now (over depth.now.walk) run d.old }
{
    // Copies, as in `store_block`: read from `x` in the loop, they might be words of D that it writes.
    let Sources {
        a,
        b,
        c,
        alpha,
        beta,
    } = *x;
    let mut at = run.from;
    for _v in 0..run.len {
        let sum = depth_sum(a, b, at, depth);
        let place = at.of(Operand::D) as usize;
        let old = d[place];
        let start = start_of(c, at.of(Operand::C), old);
        d[place] = combine(alpha, sum, beta, start);
        at = at.plus(run.step);
    }
}
