ghost use Rattle.std.specs.Prelude.{◌≡◌, ◌+◌, ◌≤◌, length};
ghost use Rattle.limits.specs.Limits.{block_limit};
ghost use Rattle.lanes.specs.LaneProducts.{products_added, scaled};

use lanes::lanes::add_at;
use limits::limits::Limits;

// To each of n sums of four blocks the product of a word and the block's own: words one after the other, each read once for all four.
pub fn add_lane_to_four(
    s0: &mut [u32; Limits::BLOCK],
    s1: &mut [u32; Limits::BLOCK],
    s2: &mut [u32; Limits::BLOCK],
    s3: &mut [u32; Limits::BLOCK],
    x: &[u32],
    from: usize,
    n: usize,
    b0: u32,
    b1: u32,
    b2: u32,
    b3: u32,
)
    requires { (n ≤ block_limit) × (from + n ≤ length x.now) }
    ensures { (s0.new ≡ products_added n (scaled x.now from b0) s0.old)
        × (s1.new ≡ products_added n (scaled x.now from b1) s1.old)
        × (s2.new ≡ products_added n (scaled x.now from b2) s2.old)
        × (s3.new ≡ products_added n (scaled x.now from b3) s3.old) }
{
    for r in 0..n {
        let w = x[from + r];
        add_at(s0, r, w, b0);
        add_at(s1, r, w, b1);
        add_at(s2, r, w, b2);
        add_at(s3, r, w, b3);
    }
}

// The same, for lanes of which most are as long as a block: their length is a constant here, by which the compiler makes a quicker loop of it.
// Stays a twin of add_lane_to_four: for lanes of which most are short the test is time lost, so each caller takes the one that suits it.
#[tactic(auto, using(crate::proofs::WholeLane::along_whole))]
pub fn add_block_lane_to_four(
    s0: &mut [u32; Limits::BLOCK],
    s1: &mut [u32; Limits::BLOCK],
    s2: &mut [u32; Limits::BLOCK],
    s3: &mut [u32; Limits::BLOCK],
    x: &[u32],
    from: usize,
    n: usize,
    b0: u32,
    b1: u32,
    b2: u32,
    b3: u32,
)
    requires { (n ≤ block_limit) × (from + n ≤ length x.now) }
    ensures { (s0.new ≡ products_added n (scaled x.now from b0) s0.old)
        × (s1.new ≡ products_added n (scaled x.now from b1) s1.old)
        × (s2.new ≡ products_added n (scaled x.now from b2) s2.old)
        × (s3.new ≡ products_added n (scaled x.now from b3) s3.old) }
{
    if n == Limits::BLOCK {
        add_lane_to_four(s0, s1, s2, s3, x, from, Limits::BLOCK, b0, b1, b2, b3);
        return;
    }
    add_lane_to_four(s0, s1, s2, s3, x, from, n, b0, b1, b2, b3);
}
