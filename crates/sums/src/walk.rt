ghost use Rattle.std.specs.Prelude.{◌≤◌};
ghost use Rattle.limits.specs.Limits.{labels_limit};
ghost use Rattle.groups.specs.Held.{labels_in};
ghost use Rattle.groups.specs.Foldable.{Foldable};
ghost use Rattle.sums.specs.Walk.{Walks};

use counts::first_label::FirstLabel;
use groups::groups::Group;
use offsets::offsets::Offsets;

// A group and how its counts are walked: in runs of its first label, `len` counts each, one step apart. Where that label has extent 0 there is no run.
#[derive(Clone, Copy)]
pub struct Walk<'a> {
    pub group: &'a Group,
    pub step: Offsets,
    pub len: u32,
    pub runs: u32,
}

// A run of outputs: where the address words of the first one stand, how far each is from the one before, and how many there are.
#[derive(Clone, Copy)]
pub struct Run {
    pub from: Offsets,
    pub step: Offsets,
    pub len: u32,
}

pub fn walk_of(g: &Group) -> Walk<'_>
    requires { (g.now.count ≤ labels_limit) × Foldable (labels_in g.now) }
    ensures { Walks (labels_in g.now) result }
{
    let label = FirstLabel::of(g);
    let step = label.step;
    let empty = label.len == 0;
    let runs = if empty {
        0
    } else if g.count == 0 {
        1
    } else {
        g.size_from(1)
    };
    Walk {
        group: g,
        step,
        len: label.len,
        runs,
    }
}
