ghost use Rattle.std.specs.Prelude.{◌+◌, length};
ghost use Rattle.kernel.specs.Kernel.{column_sum};
ghost use Rattle.kernel.specs.KernelNeeds.{Summable};
ghost use Rattle.four_columns.specs.FourSums.{FourSums};

use kernel::kernel::Packed;
use limits::limits::Limits;
use shared_lane::shared_lane::add_block_lane_to_four;

// The sums of four columns that stand side by side. No array of arrays: each of the four is lent to the hot loop by itself, as are the words b0 to b3.
#[derive(Clone, Copy)]
pub struct Four {
    pub first: [u32; Limits::BLOCK],
    pub second: [u32; Limits::BLOCK],
    pub third: [u32; Limits::BLOCK],
    pub fourth: [u32; Limits::BLOCK],
}

// The sums of the column whose words of packed B stand at `from`, and of the next three.
pub fn four_columns(t: &Packed, count: usize, from: usize) -> Four
    requires { Summable t.now.rows count (from + 3) t.now.cols t.now.depth (length t.now.work.now) }
    ensures { FourSums count
        (λ q. column_sum t.now.work.now t.now.rows (from + q) t.now.cols t.now.depth)
        result }
{
    let none = [0u32; Limits::BLOCK];
    let mut s = Four {
        first: none,
        second: none,
        third: none,
        fourth: none,
    };
    let work = t.work;
    for d in 0..t.depth {
        let at = from + t.cols * d;
        let b0 = work[at];
        let b1 = work[at + 1];
        let b2 = work[at + 2];
        let b3 = work[at + 3];
        add_block_lane_to_four(
            &mut s.first,
            &mut s.second,
            &mut s.third,
            &mut s.fourth,
            work,
            t.rows * d,
            count,
            b0,
            b1,
            b2,
            b3,
        );
    }
    s
}
