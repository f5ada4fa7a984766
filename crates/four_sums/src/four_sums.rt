ghost use Rattle.std.specs.Prelude.{◌≡◌, ℕ, ◌+◌, ◌≤◌};
ghost use Rattle.words.specs.Words.{word};
ghost use Rattle.limits.specs.Limits.{block_limit};
ghost use Rattle.contraction.specs.declared.contraction.Operand.TheVariants.{B};
ghost use Rattle.offsets.specs.Offsets.{words_in};
ghost use Rattle.sums.specs.Walk.{steps, sum_from, over};
ghost use Rattle.side_sums.specs.SideSums.{Added, AllReadable};
ghost use Rattle.four_lanes.specs.FourLanes.{of_run, Blocks};
ghost use Rattle.four_sums.specs.FourRunSums.{begins_of, on_from, RunInside, RunAdded, Shared};

use contraction::contraction::Operand;
use four_lanes::four_lanes::add_to_four;
use limits::limits::Limits;
use odometer::odometer::advance;
use offsets::offsets::Offsets;
use sums::tabled::TabledWalk;
use sums::walk::Run;

// Where the three runs of outputs after a run begin, each as long as it and by the same step.
#[derive(Clone, Copy)]
pub struct NextRuns {
    pub second: Offsets,
    pub third: Offsets,
    pub fourth: Offsets,
}

// How far a run's address word of B is from another's, modulo 2^64.
fn further(from: Offsets, to: Offsets) -> u64
    ensures { words_in to B ≡ word 64 (result + words_in from B) }
{
    to.of(Operand::B).wrapping_sub(from.of(Operand::B))
}

// The products of one run of depth counts, for n outputs of four runs: they share A's words, and B's of another run of outputs are as far from the first one's
// as they were.
fn add_run(
    s0: &mut [u32; Limits::BLOCK],
    s1: &mut [u32; Limits::BLOCK],
    s2: &mut [u32; Limits::BLOCK],
    s3: &mut [u32; Limits::BLOCK],
    a: &[u32],
    b: &[u32],
    at: Offsets,
    to_1: u64,
    to_2: u64,
    to_3: u64,
    depth: &TabledWalk,
    n: usize,
)
    requires { (1 ≤ n)
        × (n ≤ block_limit)
        × Blocks s0.old s1.old s2.old s3.old
        × ((q : ℕ) → RunInside n «at» depth.now.walk.step depth.now.walk.len a.now b.now
        (of_run (words_in «at» B) (on_from «at» to_1) (on_from «at» to_2) (on_from «at» to_3) q)) }
    ensures { RunAdded n «at» depth.now.walk.step depth.now.walk.len a.now b.now (words_in «at» B) s0.old s0.new
        × RunAdded n «at» depth.now.walk.step depth.now.walk.len a.now b.now (on_from «at» to_1) s1.old s1.new
        × RunAdded n «at» depth.now.walk.step depth.now.walk.len a.now b.now (on_from «at» to_2) s2.old s2.new
        × RunAdded n «at» depth.now.walk.step depth.now.walk.len a.now b.now (on_from «at» to_3) s3.old s3.new }
{
    let j = at.of(Operand::B);
    let j1 = j.wrapping_add(to_1);
    let j2 = j.wrapping_add(to_2);
    let j3 = j.wrapping_add(to_3);
    add_to_four(
        s0,
        s1,
        s2,
        s3,
        a,
        b,
        at.of(Operand::A),
        j,
        j1,
        j2,
        j3,
        depth.walk.step.of(Operand::A),
        depth.walk.step.of(Operand::B),
        depth.walk.len,
        n,
    );
}

// The sums over the depth group, for a run of outputs and the next three, added to what stands there. The address words of the first run are carried from depth
// run to depth run, and B's of the others are as far from them as they were.
pub fn four_sums(
    s0: &mut [u32; Limits::BLOCK],
    s1: &mut [u32; Limits::BLOCK],
    s2: &mut [u32; Limits::BLOCK],
    s3: &mut [u32; Limits::BLOCK],
    a: &[u32],
    b: &[u32],
    run: Run,
    next: NextRuns,
    depth: &TabledWalk,
)
    requires { (1 ≤ run.len)
        × (run.len ≤ block_limit)
        × Blocks s0.old s1.old s2.old s3.old
        × Shared (begins_of run next) run.step
        × ((q : ℕ) → AllReadable run.len (over depth.now.walk) a.now b.now (steps (begins_of run next q) run.step)) }
    ensures { Added run.len (λ r. sum_from (over depth.now.walk) a.now b.now (steps run.from run.step r)) s0.old s0.new
        × Added run.len (λ r. sum_from (over depth.now.walk) a.now b.now (steps next.second run.step r)) s1.old s1.new
        × Added run.len (λ r. sum_from (over depth.now.walk) a.now b.now (steps next.third run.step r)) s2.old s2.new
        × Added run.len (λ r. sum_from (over depth.now.walk) a.now b.now (steps next.fourth run.step r)) s3.old s3.new }
{
    let n = run.len as usize;
    let to_1 = further(run.from, next.second);
    let to_2 = further(run.from, next.third);
    let to_3 = further(run.from, next.fourth);
    let mut digits = [0u64; Limits::LABELS];
    let mut at = run.from;
    for _m in 0..depth.walk.runs {
        add_run(s0, s1, s2, s3, a, b, at, to_1, to_2, to_3, depth, n);
        at = advance(at, &mut digits, depth.rows);
    }
}
