ghost use Rattle.std.specs.Prelude.{◌≡◌, not, cond, ◌&&◌, ◌||◌, ◌+◌, ◌*◌, ◌-◌, ◌^◌, ◌<◌, eqb, leb, ltb};
ghost use Rattle.layout.specs.Listed.{listed};
ghost use Rattle.validity.specs.Checked.{Checked};
ghost use Rattle.labels.specs.Labels.{extent_of};
ghost use Rattle.entries.specs.EntryQuestions.{stride_size, below, strides_apart, apart};

use entries::inside::has_entries;
use labels::labelled::Labelled;
use labels::labels::{extent_of, last_index, stride_of};
use layout::axes::Axes;

// The size of a letter's stride.
fn stride_size(x: Axes, c: u32) -> u64
    requires { Checked x }
    ensures { (result ≡ stride_size (listed x) c) × (result < 2 ^ 32) }
{
    let word = stride_of(x, c);
    words::up(word) + words::down(word)
}

// What the label d adds to the sum that c's stride size has to exceed.
fn share(x: Axes, c: u32, d: u32) -> u64
    requires { Checked x }
    ensures { (result ≡ cond (not (eqb c d) && leb (stride_size (listed x) d) (stride_size (listed x) c))
        ((extent_of d (listed x) - 1) * stride_size (listed x) d) 0)
        × (result < 2 ^ 48) }
{
    let size = stride_size(x, d);
    if (c != d) & (size <= stride_size(x, c)) {
        last_index(extent_of(x, d)) * size
    } else {
        0
    }
}

// The sum that c's stride size has to exceed.
fn sum_below(x: &Labelled, c: u32) -> u64
    ensures { result ≡ below (listed x.now.axes) c }
{
    let letters = x.letters.as_slice();
    let mut sum: u64 = 0;
    for d in letters {
        sum += share(x.axes, c, u32::from(*d));
    }
    sum
}

// Does the stride of a label leave room for those that are no greater?
fn has_room(x: &Labelled, c: u32) -> bool
    ensures { result
        ≡ (leb (extent_of c (listed x.now.axes)) 1 || ltb (below (listed x.now.axes) c) (stride_size (listed x.now.axes) c)) }
{
    extent_of(x.axes, c) <= 1 || sum_below(x, c) < stride_size(x.axes, c)
}

// Does the stride of each label leave room for those that are no greater?
fn strides_apart(x: &Labelled) -> bool
    ensures { result ≡ strides_apart (listed x.now.axes) }
{
    let letters = x.letters.as_slice();
    letters.iter().all(|c| has_room(x, u32::from(*c)))
}

// Question 9. Whether there are entries is looked at only where the strides don't tell.
#[tactic(auto, unfolding(entries::specs::EntryQuestions::apart))]
pub fn all_apart(x: &Labelled) -> bool
    ensures { result ≡ apart (listed x.now.axes) }
{
    strides_apart(x) || !has_entries(x)
}
