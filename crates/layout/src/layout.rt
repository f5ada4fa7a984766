ghost use Rattle.std.specs.Prelude.{◌≡◌, get_or, pos};
ghost use Rattle.layout.specs.Layout.{layout_of, axes_of};

use limits::limits::Limits;

// One letter of a tensor with its extent and its stride.
#[derive(Clone, Copy, Default)]
pub struct Axis {
    pub letter: u32,
    pub extent: u32,
    pub stride: i32,
}

// A tensor's layout as it was handed in: the first 8 axes, and how many letters, extents and strides there were, so that
// questions 1 and 2 can be asked of it.
#[derive(Clone, Copy)]
pub struct Layout {
    pub axes: [Axis; Limits::RANK],
    pub letter_count: usize,
    pub extent_count: usize,
    pub stride_count: usize,
    pub base: u32,
}

// One axis; what is missing is 0.
fn axis_at(letters: &[u8], extents: &[u32], strides: &[i32], i: usize) -> Axis
    ensures { (result.letter ≡ get_or letters.now i 0)
        × (result.extent ≡ get_or extents.now i 0)
        × (result.stride ≡ get_or strides.now i (pos 0)) }
{
    Axis {
        letter: u32::from(letters.get(i).copied().unwrap_or(0)),
        extent: extents.get(i).copied().unwrap_or(0),
        stride: strides.get(i).copied().unwrap_or(0),
    }
}

// The first 8 axes.
fn first_axes(letters: &[u8], extents: &[u32], strides: &[i32]) -> [Axis; Limits::RANK]
    ensures { result ≡ axes_of letters.now extents.now strides.now }
{
    std::array::from_fn(|i| axis_at(letters, extents, strides, i))
}

impl Layout {
    // The layout as it is handed in. Of a ninth letter, extent or stride only the count is kept: question 1 refuses nine letters, question 2
    // counts that differ. What is missing of the first 8 axes is 0.
    #[tactic(auto, unfolding(crate::specs::Layout::layout_of))]
    pub fn new(letters: &[u8], extents: &[u32], strides: &[i32], base: u32) -> Layout
        ensures { result ≡ layout_of letters.now extents.now strides.now base }
    {
        Layout {
            axes: first_axes(letters, extents, strides),
            letter_count: letters.len(),
            extent_count: extents.len(),
            stride_count: strides.len(),
            base,
        }
    }
}
