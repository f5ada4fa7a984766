ghost use Rattle.std.specs.Prelude.{◌≡◌, ◌+◌, ◌*◌, ◌<◌, ◌≤◌, length, get_or};
ghost use Rattle.block.specs.Places.{place_of};
ghost use Rattle.stretch.specs.StretchLanes.{lanes_stored};
ghost use Rattle.pack.specs.PackNeeds.{band_stored, BandIn, Packable};

use block::block::{Block, step_at};
use limits::limits::Limits;
use stretch::stretch::{Lanes, Stretch, pack_stretch};

// How many lanes make a band: enough that the set-up of a stretch does not count, and few enough that what they read stays near.
const BAND: usize = 16;

// The words at the places of a block in each lane, stretch by stretch.
fn pack_band(lanes: Lanes, block: &Block, out: &mut [u32], to: usize)
    requires { BandIn lanes block.now to (length out.old) }
    ensures { out.new ≡ band_stored lanes.entry block.now to out.old }
{
    let mut r: usize = 0;
    // Stays a while: a turn goes on by as many places as the stretch has, which it reads; a for has no such step.
    while r < block.count {
        let s = Stretch {
            offset: block.offsets[r],
            step: step_at(&block.offsets, r),
            len: usize::from(block.lengths[r]),
        };
        pack_stretch(lanes, s, out, to + r);
        r += s.len;
    }
}

// A block packed in the first `filled` lanes: place n of lane d at n + width × d. `starts` has where the block begins at each of these depth counts.
// It is packed a band of lanes at a time, each stretch in all lanes of the band. What lies past the edge is left as it is.
pub fn pack(
    src: &[u32],
    starts: &[u64; Limits::DEPTH],
    filled: usize,
    block: &Block,
    width: usize,
    out: &mut [u32],
)
    requires { Packable starts.now filled block.now width (length src.now) (length out.old) }
    ensures { out.new
        ≡ lanes_stored filled block.now.count width
        (λ d n. get_or src.now (place_of (get_or starts.now d 0) block.now.offsets n) 0)
        0 out.old }
{
    for d in (0..filled).step_by(BAND) {
        let lanes = Lanes {
            src,
            starts,
            first: d,
            count: (filled - d).min(BAND),
            width,
        };
        pack_band(lanes, block, out, width * d);
    }
}
