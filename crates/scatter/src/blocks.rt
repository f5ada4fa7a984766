ghost use Rattle.std.specs.Prelude.{◌≡◌, ◌+◌, ◌^◌, ◌<◌, ◌≤◌, length};
ghost use Rattle.words.specs.Fronts.{front};
ghost use Rattle.words.specs.Stepped.{stepped};
ghost use Rattle.limits.specs.Limits.{labels_limit, block_limit};
ghost use Rattle.groups.specs.Groups.{size};
ghost use Rattle.groups.specs.Held.{labels_in};
ghost use Rattle.scatter.specs.ScatterVectors.{scatter_vector, Blocked};

use block::block::Block;
use contraction::contraction::Operand;
use counts::counts::offset_in;
use counts::first_label::{FirstLabel, first_step};
use groups::groups::Group;
use limits::limits::Limits;

// The scatter vector of `count` counts of a group from `first` on: their offsets in one tensor, moved by `from`. They are formed anew where the first
// label starts again, and a step is added elsewhere; `left` is how many steps there are up to the next start.
fn scatter_labels(g: &Group, o: Operand, from: u64, first: u32, count: usize, out: &mut [u64])
    requires { (g.now.count ≤ labels_limit)
        × (size (labels_in g.now) < 2 ^ 32)
        × (first + count ≤ size (labels_in g.now))
        × (count ≤ length out.old) }
    ensures { out.new ≡ scatter_vector o from (labels_in g.now) first count out.old }
{
    let label = FirstLabel::of(g);
    let step = label.step.of(o);
    let len = label.len;
    let mut at = from;
    let mut left: u32 = 0;
    for (k, place) in out[..count].iter_mut().enumerate() {
        if left == 0 {
            let n = first + (k as u32);
            at = from.wrapping_add(offset_in(g, o, n));
            left = len - n % len;
        } else {
            at = at.wrapping_add(step);
        }
        left -= 1;
        *place = at;
    }
}

// Words from `start` on, each a step from the one before.
fn step_vector(start: u64, step: u64, count: usize, out: &mut [u64])
    requires { count ≤ length out.old }
    ensures { out.new ≡ front count (stepped «start» step) out.old }
{
    let mut at = start;
    for place in out[..count].iter_mut() {
        *place = at;
        at = at.wrapping_add(step);
    }
}

// The same as `scatter_labels`. The counts of a single label lie a step apart.
pub fn scatter_vector(g: &Group, o: Operand, from: u64, first: u32, count: usize, out: &mut [u64])
    requires { (g.now.count ≤ labels_limit)
        × (size (labels_in g.now) < 2 ^ 32)
        × (first + count ≤ size (labels_in g.now))
        × (count ≤ length out.old) }
    ensures { out.new ≡ scatter_vector o from (labels_in g.now) first count out.old }
{
    if g.count < 2 {
        let step = first_step(g, o);
        let start = from.wrapping_add(words::scale(first, step));
        step_vector(start, step, count, out);
        return;
    }
    scatter_labels(g, o, from, first, count, out);
}

// In one tensor the block of `count` counts of a group from `first` on.
pub fn block_of(g: &Group, o: Operand, first: u32, count: usize) -> Block
    requires { (g.now.count ≤ labels_limit)
        × (size (labels_in g.now) < 2 ^ 32)
        × (first + count ≤ size (labels_in g.now))
        × (count ≤ block_limit) }
    ensures { Blocked o (labels_in g.now) first count result }
{
    let mut offsets = [0u64; Limits::BLOCK];
    scatter_vector(g, o, 0, first, count, &mut offsets);
    Block::of(offsets, count)
}
