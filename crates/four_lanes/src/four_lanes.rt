ghost use Rattle.std.specs.Prelude.{ℕ, ◌≤◌};
ghost use Rattle.words.specs.Stepped.{stepped};
ghost use Rattle.limits.specs.Limits.{block_limit};
ghost use Rattle.side_sums.specs.SideSums.{side_run, RunsInside};
ghost use Rattle.four_lanes.specs.FourLanes.{of_run, LanesAdded, Blocks};

use limits::limits::Limits;
use shared_lane::shared_lane::add_lane_to_four;

// The products of a run of depth counts, for n outputs of four runs side by side: a lane of A for each count, which each run multiplies by its own word of B.
// The four blocks of sums and B's four address words stay parameters of their own: add_lane_to_four takes them so, as does add_block_lane_to_four, which
// four_columns uses.
pub fn add_to_four(
    s0: &mut [u32; Limits::BLOCK],
    s1: &mut [u32; Limits::BLOCK],
    s2: &mut [u32; Limits::BLOCK],
    s3: &mut [u32; Limits::BLOCK],
    a: &[u32],
    b: &[u32],
    from_a: u64,
    from_0: u64,
    from_1: u64,
    from_2: u64,
    from_3: u64,
    step_a: u64,
    step_b: u64,
    len: u32,
    n: usize,
)
    requires { (1 ≤ n)
        × (n ≤ block_limit)
        × Blocks s0.old s1.old s2.old s3.old
        × ((q : ℕ) → RunsInside n len (side_run from_a 1 step_a) (λ r. stepped (of_run from_0 from_1 from_2 from_3 q) step_b) a.now b.now) }
    ensures { LanesAdded n len from_a step_a a.now from_0 step_b b.now s0.old s0.new
        × LanesAdded n len from_a step_a a.now from_1 step_b b.now s1.old s1.new
        × LanesAdded n len from_a step_a a.now from_2 step_b b.now s2.old s2.new
        × LanesAdded n len from_a step_a a.now from_3 step_b b.now s3.old s3.new }
{
    let mut i = from_a;
    let mut j0 = from_0;
    let mut j1 = from_1;
    let mut j2 = from_2;
    let mut j3 = from_3;
    for _v in 0..len {
        let b0 = b[j0 as usize];
        let b1 = b[j1 as usize];
        let b2 = b[j2 as usize];
        let b3 = b[j3 as usize];
        add_lane_to_four(s0, s1, s2, s3, a, i as usize, n, b0, b1, b2, b3);
        i = i.wrapping_add(step_a);
        j0 = j0.wrapping_add(step_b);
        j1 = j1.wrapping_add(step_b);
        j2 = j2.wrapping_add(step_b);
        j3 = j3.wrapping_add(step_b);
    }
}
