ghost use Rattle.std.specs.Prelude.{◌≡◌};
ghost use Rattle.validity.specs.Checked.{Checked};
ghost use Rattle.labels.specs.LetteredBy.{LetteredBy};

use super::letter_sets::Letters;
use layout::axes::Axes;

// A list of axes of which questions 1 and 3 to 5 passed, beside its different letters.
#[derive(Clone, Copy)]
pub struct Labelled {
    pub axes: Axes,
    pub letters: Letters,
    pub ghost lettered: { LetteredBy axes letters },
}

impl Labelled {
    ghost use Rattle.labels.specs.Lettered.{Lettered};

    // No axis, and no letter.
    pub fn none() -> Labelled
        ensures { Lettered result × (result.axes.count ≡ 0) }
    {
        Labelled {
            axes: Axes::none(),
            letters: Letters::none(),
        }
    }

    pub fn of(axes: Axes) -> Labelled
        requires { Checked axes }
        ensures { Lettered result × (result.axes ≡ axes) }
    {
        let letters = Letters::none().with_axes(axes);
        Labelled { axes, letters }
    }
}
