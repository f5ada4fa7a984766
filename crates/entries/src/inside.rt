ghost use Rattle.std.specs.Prelude.{◌≡◌, ◌+◌, ◌*◌, ◌-◌, ◌^◌, ◌<◌, ◌≤◌};
ghost use Rattle.words.specs.Words.{up, down, signed};
ghost use Rattle.limits.specs.Limits.{extent_limit};
ghost use Rattle.layout.specs.Listed.{listed};
ghost use Rattle.entries.specs.EntryQuestions.{has_entries, span, inside};

use labels::labelled::Labelled;
use labels::labels::{extent_of, last_index, stride_of};

// Has the tensor any entry? With an extent 0 it has none.
pub fn has_entries(x: &Labelled) -> bool
    ensures { result ≡ has_entries (listed x.now.axes) }
{
    let letters = x.letters.as_slice();
    letters.iter().all(|c| 0 < extent_of(x.axes, u32::from(*c)))
}

// How far the entries of a tensor reach above and below its base, if there are any.
#[derive(Clone, Copy)]
pub struct Reach {
    pub up: u64,
    pub down: u64,
}

impl Reach {
    // The reach with one label more.
    fn with(self, extent: u32, stride: u64) -> Reach
        requires { (self.up < 2 ^ 60)
            × (self.down < 2 ^ 60)
            × (extent ≤ extent_limit)
            × (up (signed 64 stride) < 2 ^ 32)
            × (down (signed 64 stride) < 2 ^ 32) }
        ensures { (result.up ≡ (extent - 1) * up (signed 64 stride) + self.up)
            × (result.down ≡ (extent - 1) * down (signed 64 stride) + self.down) }
    {
        let last = last_index(extent);
        let above = last * words::up(stride);
        let below = last * words::down(stride);
        Reach {
            up: above + self.up,
            down: below + self.down,
        }
    }
}

pub fn reach_of(x: &Labelled) -> Reach
    ensures { (result.up ≡ span up (listed x.now.axes))
        × (result.down ≡ span down (listed x.now.axes))
        × (result.up < 2 ^ 60)
        × (result.down < 2 ^ 60) }
{
    let letters = x.letters.as_slice();
    let mut reach = Reach { up: 0, down: 0 };
    for c in letters {
        let c = u32::from(*c);
        reach = reach.with(extent_of(x.axes, c), stride_of(x.axes, c));
    }
    reach
}

// Question 8.
#[tactic(auto, unfolding(crate::specs::EntryQuestions::inside))]
pub fn all_inside(x: &Labelled, base: u32, length: usize) -> bool
    ensures { result ≡ inside (listed x.now.axes) base length }
{
    let reach = reach_of(x);
    let start = u64::from(base);
    let end = length as u64;
    !has_entries(x) || (reach.down <= start && start + reach.up < end)
}
