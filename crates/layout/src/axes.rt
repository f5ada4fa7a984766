ghost use Rattle.std.specs.Prelude.{◌≡◌, ◌≤◌, []};
ghost use Rattle.limits.specs.Limits.{rank_limit};
ghost use Rattle.layout.specs.Layout.{axes};
ghost use Rattle.layout.specs.Listed.{listed};

use super::layout::{Axis, Layout};
use limits::limits::Limits;

// The axes of a tensor. Stays an array with its count: there is no heap, and `listed` reads both.
#[derive(Clone, Copy)]
pub struct Axes {
    pub items: [Axis; Limits::RANK],
    pub count: usize,
}

impl Axes {
    // The axes as a slice.
    pub fn as_slice(&self) -> &[Axis]
        requires { self.now.count ≤ rank_limit }
        ensures { result.now ≡ listed self.now }
    {
        &self.items[..self.count]
    }

    #[tactic(auto, unfolding(crate::specs::Listed::listed))]
    pub fn none() -> Axes
        ensures { (listed result ≡ []) × (result.count ≡ 0) }
    {
        Axes {
            items: [Axis::default(); Limits::RANK],
            count: 0,
        }
    }

    #[tactic(auto, unfolding(crate::specs::Listed::listed, crate::specs::Layout::axes))]
    pub fn of(l: Layout) -> Axes
        ensures { (listed result ≡ axes l) × (result.count ≡ l.letter_count) }
    {
        let items = l.axes;
        Axes {
            items,
            count: l.letter_count,
        }
    }
}
