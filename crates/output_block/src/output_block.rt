ghost use Rattle.std.specs.Prelude.{◌≡◌, true, ◌≤◌, length, is_some};
ghost use Rattle.words.specs.Loops.{Within};
ghost use Rattle.limits.specs.Limits.{block_limit};
ghost use Rattle.contraction.specs.declared.contraction.Operand.TheVariants.{C, D};
ghost use Rattle.output_words.specs.StartWords.{words_of};
ghost use Rattle.sums.specs.Walk.{steps, over};
ghost use Rattle.output_run.specs.FilledOutput.{run_of, RunFillable};
ghost use Rattle.output_block.specs.StoredRun.{stored_of};

use contraction::contraction::Operand;
use limits::limits::Limits;
use output_words::output::{Sources, store_block};
use side_sums::side::block_sums;
use sums::tabled::TabledWalk;
use sums::walk::Run;

// The sums of a run of outputs, each combined with what it starts from and stored.
pub fn store_run(x: &Sources, d: &mut [u32], sums: &[u32; Limits::BLOCK], run: Run)
    requires { (run.len ≤ block_limit)
        × (is_some x.now.c ≡ true → Within run.len (λ r. steps run.from run.step r C) (length (words_of x.now.c)))
        × Within run.len (λ r. steps run.from run.step r D) (length d.old) }
    ensures { d.new ≡ stored_of x.now sums.now run d.old }
{
    store_block(
        x,
        d,
        sums,
        run.len as usize,
        run.from.of(Operand::C),
        run.from.of(Operand::D),
        run.step.of(Operand::C),
        run.step.of(Operand::D),
    );
}

// The words of D of a block's output counts, summed side by side.
pub fn fill_block(x: &Sources, d: &mut [u32], block: Run, depth: &TabledWalk)
    requires { (1 ≤ block.len)
        × (block.len ≤ block_limit)
        × RunFillable x.now (over depth.now.walk) block (length d.old) }
    ensures { d.new ≡ run_of x.now (over depth.now.walk) block d.old }
{
    let sums = block_sums(x.a, x.b, block, depth);
    store_run(x, d, &sums, block);
}
