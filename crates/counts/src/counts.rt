ghost use Rattle.std.specs.Prelude.{◌≡◌, ◌*◌, ◌<◌, ◌≤◌};
ghost use Rattle.words.specs.Words.{word, word_of, signed};
ghost use Rattle.limits.specs.Limits.{labels_limit};
ghost use Rattle.groups.specs.Groups.{size};
ghost use Rattle.groups.specs.Held.{labels_in};
ghost use Rattle.offsets.specs.Counts.{offset_in};

use super::first_label::first_step;
use contraction::contraction::Operand;
use groups::groups::Group;

// A value of a label times its stride in a tensor.
fn moved(value: u32, stride: u64) -> u64
    ensures { result ≡ word 64 (value * word_of 64 (signed 64 stride)) }
{
    words::scale(value, stride)
}

// The offset of a count of a group in one tensor, the first label running fastest.
fn offset_along(g: &Group, o: Operand, n: u32) -> u64
    requires { (g.now.count ≤ labels_limit) × (n < size (labels_in g.now)) }
    ensures { result ≡ word 64 (offset_in (word_of 64) o (labels_in g.now) n) }
{
    let mut at: u64 = 0;
    let mut rest = n;
    for l in g.labels() {
        at = at.wrapping_add(moved(rest % l.extent, l.stride(o)));
        rest /= l.extent;
    }
    at
}

// The same. The count of a single label is its value, which needs no loop.
pub fn offset_in(g: &Group, o: Operand, n: u32) -> u64
    requires { (g.now.count ≤ labels_limit) × (n < size (labels_in g.now)) }
    ensures { result ≡ word 64 (offset_in (word_of 64) o (labels_in g.now) n) }
{
    if g.count < 2 {
        return words::scale(n, first_step(g, o));
    }
    offset_along(g, o, n)
}
