ghost use Rattle.std.specs.Prelude.{◌≡◌, ◌-◌, ◌≤◌, List, ◌++◌};
ghost use Rattle.words.specs.Words.{word_of};
ghost use Rattle.limits.specs.Limits.{rank_limit};
ghost use Rattle.layout.specs.declared.layout.Axis.{Axis};
ghost use Rattle.layout.specs.Listed.{listed};
ghost use Rattle.validity.specs.Checked.{Checked};
ghost use Rattle.labels.specs.Labels.{stride_of, extent_of};

use layout::axes::Axes;

// The extent of a letter where it first occurs, `other` where it is absent.
pub fn extent_or(x: Axes, c: u32, other: u32) -> u32
    requires { x.count ≤ rank_limit }
    ensures { (ys : List Axis) → other ≡ extent_of c ys → result ≡ extent_of c (listed x ++ ys) }
{
    let axes = x.as_slice();
    for axis in axes {
        if axis.letter == c {
            return axis.extent;
        }
    }
    other
}

// The extent of a letter where it first occurs, 1 where it is absent.
pub fn extent_of(x: Axes, c: u32) -> u32
    requires { x.count ≤ rank_limit }
    ensures { result ≡ extent_of c (listed x) }
{
    extent_or(x, c, 1)
}

// The sum of the strides of a letter, as an address word.
pub fn stride_of(x: Axes, c: u32) -> u64
    requires { Checked x }
    ensures { result ≡ word_of 64 (stride_of c (listed x)) }
{
    let axes = x.as_slice();
    let mut sum: u64 = 0;
    for a in axes {
        if a.letter == c {
            sum = sum.wrapping_add(words::address_word(a.stride));
        }
    }
    sum
}

// The last index of a label: one less than its extent, and 0 where that is 0.
pub fn last_index(extent: u32) -> u64
    ensures { result ≡ extent - 1 }
{
    u64::from(extent.saturating_sub(1))
}
