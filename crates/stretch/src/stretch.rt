ghost use Rattle.std.specs.Prelude.{◌≡◌, ◌+◌, ◌<◌, ◌≤◌, length};
ghost use Rattle.limits.specs.Limits.{depth_limit};
ghost use Rattle.stretch.specs.StretchLanes.{stretch_stored, StretchIn};

use lane_words::lane_words::pack_words;
use limits::limits::Limits;

// `count` lanes side by side, from lane `first` on, each `width` words wide: a lane's words are read from `src`, where its block begins at its start.
#[derive(Clone, Copy)]
pub struct Lanes<'a> {
    pub src: &'a [u32],
    pub starts: &'a [u64; Limits::DEPTH],
    pub first: usize,
    pub count: usize,
    pub width: usize,
}

// A stretch of `len` places of a block, each a step past the one before. It begins `offset` past where the block begins.
#[derive(Clone, Copy)]
pub struct Stretch {
    pub offset: u64,
    pub step: u64,
    pub len: usize,
}

// The words of a stretch in each lane, that of the first lane from place `to` on.
fn pack_lanes(lanes: Lanes, s: Stretch, out: &mut [u32], to: usize)
    requires { StretchIn lanes s to (length out.old) }
    ensures { out.new ≡ stretch_stored lanes.entry s to out.old }
{
    for q in 0..lanes.count {
        let at = lanes.starts[lanes.first + q].wrapping_add(s.offset);
        pack_words(lanes.src, at, s.step, s.len, out, to + lanes.width * q);
    }
}

// The same, two places at a time in all lanes.
fn pack_by_two(lanes: Lanes, s: Stretch, out: &mut [u32], to: usize)
    requires { StretchIn lanes s to (length out.old) }
    ensures { out.new ≡ stretch_stored lanes.entry s to out.old }
{
    let double = s.step.wrapping_add(s.step);
    let mut at = s.offset;
    for k in (0..s.len).step_by(2) {
        let two = Stretch {
            offset: at,
            step: s.step,
            len: (s.len - k).min(2),
        };
        pack_lanes(lanes, two, out, to + k);
        at = at.wrapping_add(double);
    }
}

// Do the lanes begin one word apart, and the places of a stretch far apart? Lane by lane each word that is read would then be in a line of the cache that is
// needed again only in the next lane.
fn along_depth(lanes: Lanes, step: u64) -> bool
    requires { lanes.first + lanes.count ≤ depth_limit }
{
    if lanes.count < 2 {
        return false;
    }
    let apart = lanes.starts[lanes.first + 1].wrapping_sub(lanes.starts[lanes.first]);
    (apart == 1) & (step.wrapping_add(64) > 128)
}

// The same: two places at a time in all lanes where the stretch is short, since a loop along it would not pay, or where the lanes lie nearer; else lane by
// lane. A test and no closure: the choice is made once for a stretch, by its length and by where the lanes begin, and both functions have one contract, so
// that a closure would only move this test to the caller.
pub fn pack_stretch(lanes: Lanes, s: Stretch, out: &mut [u32], to: usize)
    requires { StretchIn lanes s to (length out.old) }
    ensures { out.new ≡ stretch_stored lanes.entry s to out.old }
{
    if (s.len < 8) | along_depth(lanes, s.step) {
        pack_by_two(lanes, s, out, to);
    } else {
        pack_lanes(lanes, s, out, to);
    }
}
