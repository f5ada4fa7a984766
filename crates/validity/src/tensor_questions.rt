ghost use Rattle.std.specs.Prelude.{◌≡◌, ◌≤◌, leb, nat_abs};
ghost use Rattle.limits.specs.Limits.{rank_limit, stride_limit};
ghost use Rattle.layout.specs.Listed.{listed};
ghost use Rattle.layout.specs.Layout.{axes};
ghost use Rattle.validity.specs.Checked.{ValidOf};
ghost use Rattle.validity.specs.TensorQuestions.{rank_fits, counts_match, strides_valid, sizes_valid};

use super::letter::is_letter;
use layout::axes::Axes;
use layout::layout::Layout;
use limits::limits::Limits;

// Question 1.
#[tactic(auto, unfolding(crate::specs::TensorQuestions::rank_fits))]
pub fn rank_fits(l: Layout) -> bool
    ensures { result ≡ rank_fits l }
{
    l.letter_count <= Limits::RANK
}

// Question 2.
#[tactic(auto, unfolding(crate::specs::TensorQuestions::counts_match))]
pub fn counts_match(l: Layout) -> bool
    ensures { result ≡ counts_match l }
{
    l.extent_count == l.letter_count && l.stride_count == l.letter_count
}

fn stride_valid(s: i32) -> bool
    ensures { result ≡ leb (nat_abs s) stride_limit }
{
    u64::from(s.unsigned_abs()) <= Limits::STRIDE
}

// What questions 3, 4 and 5 ask of axes: are all letters, all extents and all strides valid? Three answers, none a flag for the others.
#[derive(Clone, Copy)]
pub struct Valid {
    pub letters: bool,
    pub extents: bool,
    pub strides: bool,
}

// Questions 3 and 4, and question 5 of the strides.
pub fn valid_of(x: Axes) -> Valid
    requires { x.count ≤ rank_limit }
    ensures { ValidOf (listed x) result }
{
    let axes = x.as_slice();
    Valid {
        letters: axes.iter().all(|a| is_letter(a.letter)),
        extents: axes.iter().all(|a| a.extent <= Limits::EXTENT),
        strides: axes.iter().all(|a| stride_valid(a.stride)),
    }
}

// Question 5: the strides, the base and the slice's length.
#[tactic(auto, unfolding(crate::specs::TensorQuestions::sizes_valid))]
pub fn sizes_valid(l: Layout, strides: bool, length: usize) -> bool
    requires { strides ≡ strides_valid (axes l) }
    ensures { result ≡ sizes_valid l length }
{
    strides && l.base <= Limits::BASE && length <= Limits::SLICE
}
