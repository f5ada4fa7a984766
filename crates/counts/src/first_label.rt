ghost use Rattle.std.specs.Prelude.{◌≡◌, ◌≤◌};
ghost use Rattle.words.specs.Words.{word_of};
ghost use Rattle.limits.specs.Limits.{labels_limit};
ghost use Rattle.groups.specs.Held.{labels_in};
ghost use Rattle.offsets.specs.FirstLabel.{first_label};
ghost use Rattle.counts.specs.FirstLabelOf.{FirstLabelOf};

use contraction::contraction::Operand;
use groups::groups::Group;
use offsets::offsets::Offsets;

// A group's first label, which runs fastest: from one count to the next is a step, `len` counts on end.
#[derive(Clone, Copy)]
pub struct FirstLabel {
    pub step: Offsets,
    pub len: u32,
}

impl FirstLabel {
    pub fn of(g: &Group) -> FirstLabel
        requires { g.now.count ≤ labels_limit }
        ensures { FirstLabelOf (labels_in g.now) result }
    {
        if g.count == 0 {
            let still = Offsets::none();
            return FirstLabel {
                step: still,
                len: 1,
            };
        }
        let l = g.dims[0];
        let step = Offsets::along(l, 1);
        FirstLabel {
            step,
            len: l.extent,
        }
    }
}

// Its step in one tensor.
pub fn first_step(g: &Group, o: Operand) -> u64
    requires { g.now.count ≤ labels_limit }
    ensures { result ≡ word_of 64 ((first_label (labels_in g.now)).stride o) }
{
    FirstLabel::of(g).step.of(o)
}
