ghost use Rattle.std.specs.Prelude.{◌≡◌, cond, length};
ghost use Rattle.thin_lines.specs.Crossed.{sides_sum};
ghost use Rattle.thin_lines.specs.ThinLines.{cross_sum, lines_added, LinesClear, Goes};

use accumulate::accumulate::Factors;
use block::block::Block;
use limits::limits::Limits;
use store::store::store_column;
use thin_sums::line_sums::{Side, by_ones, line_sums, line_words};

// The sums of each line of a short side's block along a long side's, added to D's words. With `run` the words of the long side stand one after the other along
// the depth, else along its block.
fn store_lines(
    long: &Side,
    short: &Side,
    run: bool,
    d: &mut [u32],
    from: u64,
    along: &Block,
    across: &Block,
    f: Factors,
)
    requires { LinesClear long.now.starts.now short.now.starts.now long.now.depth long.now.block.now short.now.block.now
        from along.now across.now (length long.now.src.now) (length short.now.src.now) (length d.old)
        × (short.now.depth ≡ long.now.depth)
        × Goes run long.now.depth long.now.starts.now long.now.block.now.count long.now.block.now.offsets }
    ensures { d.new
        ≡ lines_added f (sides_sum long.now short.now)
        from across.now.offsets short.now.block.now.count along.now.offsets long.now.block.now.count d.old }
{
    for q in 0..short.block.count {
        let line = line_words(short, short.block.offsets[q]);
        let sums = line_sums(long, run, &line);
        let at = from.wrapping_add(across.offsets[q]);
        store_column(
            d,
            at,
            &along.offsets,
            &along.lengths,
            long.block.count,
            &sums,
            f,
        );
    }
}

// The same where the words of the long side stand one after the other either way: was it done?
pub fn thin_lines(
    long: &[u32],
    short: &[u32],
    starts: &[u64; Limits::DEPTH],
    begins: &[u64; Limits::DEPTH],
    filled: usize,
    l: Block,
    s: Block,
    d: &mut [u32],
    from: u64,
    along: Block,
    across: Block,
    f: Factors,
) -> bool
    requires { LinesClear starts.now begins.now filled l s from along across (length long.now) (length short.now) (length d.old) }
    ensures { d.new
        ≡ cond result
        (lines_added f
        (cross_sum long.now starts.now l.offsets short.now begins.now s.offsets filled)
        from across.offsets s.count along.offsets l.count d.old)
        d.old }
{
    let run = by_ones(starts, filled);
    if !run && !by_ones(&l.offsets, l.count) {
        return false;
    }
    let along_long = Side {
        src: long,
        starts,
        depth: filled,
        block: &l,
    };
    let along_short = Side {
        src: short,
        starts: begins,
        depth: filled,
        block: &s,
    };
    store_lines(&along_long, &along_short, run, d, from, &along, &across, f);
    true
}
