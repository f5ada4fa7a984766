ghost use Rattle.std.specs.Prelude.{◌≡◌, ◌≤◌, length};
ghost use Rattle.words.specs.Stepped.{stepped};
ghost use Rattle.limits.specs.Limits.{block_limit};
ghost use Rattle.dots.specs.Dot.{dot};
ghost use Rattle.sums.specs.Walk.{steps, sum_from, over};
ghost use Rattle.side_sums.specs.SideSums.{side_of, still_of, Sums, Added, RunsInside, AllReadable};

use contraction::contraction::Operand;
use lanes::lanes::{add_products, add_times};
use limits::limits::Limits;
use odometer::odometer::advance;
use sums::tabled::TabledWalk;
use sums::walk::Run;

// A tensor's words along a run of depth counts: where the first output's begin, how far depth counts are apart, and how far outputs are.
#[derive(Clone, Copy)]
pub struct Side<'a> {
    pub words: &'a [u32],
    pub from: u64,
    pub step: u64,
    pub along: u64,
}

// The products of a run of depth counts, for n outputs side by side: a lane for each count. Here X goes along the outputs and Y stands still, so that a lane
// is multiplied by one word of Y.
fn add_still(sums: &mut [u32; Limits::BLOCK], x: &Side, y: &Side, len: u32, n: usize)
    requires { (1 ≤ n)
        × (n ≤ block_limit)
        × (length sums.old ≡ block_limit)
        × RunsInside n len (side_of x.now) (λ r. still_of y.now) x.now.words.now y.now.words.now }
    ensures { Added n
        (λ r. dot len (side_of x.now r) x.now.words.now (still_of y.now) y.now.words.now)
        sums.old
        sums.new }
{
    let mut i = x.from;
    let mut j = y.from;
    for _v in 0..len {
        let by = y.words[j as usize];
        add_times(sums, x.words, i, x.along, n, by);
        i = i.wrapping_add(x.step);
        j = j.wrapping_add(y.step);
    }
}

// The same where A and B both go along the outputs.
fn add_moving(sums: &mut [u32; Limits::BLOCK], a: &Side, b: &Side, len: u32, n: usize)
    requires { (1 ≤ n)
        × (n ≤ block_limit)
        × (length sums.old ≡ block_limit)
        × RunsInside n len (side_of a.now) (side_of b.now) a.now.words.now b.now.words.now }
    ensures { Added n
        (λ r. dot len (side_of a.now r) a.now.words.now (side_of b.now r) b.now.words.now)
        sums.old
        sums.new }
{
    let mut i = a.from;
    let mut j = b.from;
    for _v in 0..len {
        add_products(sums, a.words, b.words, i, j, a.along, b.along, n);
        i = i.wrapping_add(a.step);
        j = j.wrapping_add(b.step);
    }
}

// The same by whichever loop suits the tensors. Which one is asked here once: asked again for each lane, it takes as long as a short lane.
pub fn add_run(sums: &mut [u32; Limits::BLOCK], a: &Side, b: &Side, len: u32, n: usize)
    requires { (1 ≤ n)
        × (n ≤ block_limit)
        × (length sums.old ≡ block_limit)
        × RunsInside n len (side_of a.now) (side_of b.now) a.now.words.now b.now.words.now }
    ensures { Added n
        (λ r. dot len (side_of a.now r) a.now.words.now (side_of b.now r) b.now.words.now)
        sums.old
        sums.new }
{
    if b.along == 0 {
        add_still(sums, a, b, len, n);
    } else if a.along == 0 {
        add_still(sums, b, a, len, n);
    } else {
        add_moving(sums, a, b, len, n);
    }
}

// The sums over the depth group, for a run of outputs side by side. The tensors' address words are carried from run to run.
pub fn block_sums(a: &[u32], b: &[u32], run: Run, depth: &TabledWalk) -> [u32; Limits::BLOCK]
    requires { (1 ≤ run.len)
        × (run.len ≤ block_limit)
        × AllReadable run.len (over depth.now.walk) a.now b.now (steps run.from run.step) }
    ensures { Sums run.len (λ r. sum_from (over depth.now.walk) a.now b.now (steps run.from run.step r)) result }
{
    let mut sums = [0u32; Limits::BLOCK];
    let mut digits = [0u64; Limits::LABELS];
    let mut at = run.from;
    for _m in 0..depth.walk.runs {
        let side_a = Side {
            words: a,
            from: at.of(Operand::A),
            step: depth.walk.step.of(Operand::A),
            along: run.step.of(Operand::A),
        };
        let side_b = Side {
            words: b,
            from: at.of(Operand::B),
            step: depth.walk.step.of(Operand::B),
            along: run.step.of(Operand::B),
        };
        add_run(
            &mut sums,
            &side_a,
            &side_b,
            depth.walk.len,
            run.len as usize,
        );
        at = advance(at, &mut digits, depth.rows);
    }
    sums
}
