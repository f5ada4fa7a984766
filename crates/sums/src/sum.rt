ghost use Rattle.std.specs.Prelude.{◌≡◌};
ghost use Rattle.words.specs.Words.{word};
ghost use Rattle.offsets.specs.Offsets.{words_in};
ghost use Rattle.sums.specs.Walk.{sum_from, over, Readable};

use super::tabled::TabledWalk;
use contraction::contraction::Operand;
use dots::dot::run_sum;
use limits::limits::Limits;
use odometer::odometer::advance;
use offsets::offsets::Offsets;

// The sum over the counts of the depth group, from where an output count leaves A and B, run by run. The tensors' address words are carried from run to run.
fn sum_of_runs(a: &[u32], b: &[u32], from: Offsets, depth: &TabledWalk) -> u32
    requires { Readable (over depth.now.walk) a.now b.now (words_in from) }
    ensures { result ≡ word 32 (sum_from (over depth.now.walk) a.now b.now (words_in from)) }
{
    let step_a = depth.walk.step.of(Operand::A);
    let step_b = depth.walk.step.of(Operand::B);
    let mut digits = [0u64; Limits::LABELS];
    let mut at = from;
    let mut sum: u32 = 0;
    for _m in 0..depth.walk.runs {
        let i = at.of(Operand::A);
        let j = at.of(Operand::B);
        let run = run_sum(a, b, i, j, step_a, step_b, depth.walk.len);
        sum = sum.wrapping_add(run);
        at = advance(at, &mut digits, depth.rows);
    }
    sum
}

// The same. Where there is one run, it begins where the group does, and no address is carried.
pub fn depth_sum(a: &[u32], b: &[u32], from: Offsets, depth: &TabledWalk) -> u32
    requires { Readable (over depth.now.walk) a.now b.now (words_in from) }
    ensures { result ≡ word 32 (sum_from (over depth.now.walk) a.now b.now (words_in from)) }
{
    if depth.walk.runs == 1 {
        return run_sum(
            a,
            b,
            from.of(Operand::A),
            from.of(Operand::B),
            depth.walk.step.of(Operand::A),
            depth.walk.step.of(Operand::B),
            depth.walk.len,
        );
    }
    sum_of_runs(a, b, from, depth)
}
