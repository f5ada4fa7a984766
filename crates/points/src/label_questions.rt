ghost use Rattle.std.specs.Prelude.{◌≡◌, ◌≤◌, eqb};
ghost use Rattle.words.specs.Sums.{every};
ghost use Rattle.limits.specs.Limits.{rank_limit};
ghost use Rattle.layout.specs.Listed.{listed};
ghost use Rattle.labels.specs.Labels.{extent_of};
ghost use Rattle.labels.specs.LetterSets.{has};
ghost use Rattle.contraction.specs.Operands.{together};
ghost use Rattle.contraction.specs.declared.contraction.Operand.TheVariants.{C, D};
ghost use Rattle.contraction.specs.TensorAxes.{shape_of};
ghost use Rattle.points.specs.LabelQuestions.{extents_agree, letters_same, points_fit};

use contraction::operands::Operands;
use labels::letter_sets::has_letter;
use layout::axes::Axes;
use limits::limits::Limits;

// Have the axes of a tensor the extents of their labels?
fn extents_as(x: &Operands, t: Axes) -> bool
    requires { t.count ≤ rank_limit }
    ensures { result ≡ every (λ a. eqb a.extent (extent_of a.letter (together (shape_of x.now)))) (listed t) }
{
    let axes = t.as_slice();
    axes.iter().all(|a| a.extent == x.extent(a.letter))
}

// The same of C's axes. Where C is not named they are D's, of which `d` is the answer.
fn extents_as_c(x: &Operands, d: bool) -> bool
    requires { d ≡ every (λ a. eqb a.extent (extent_of a.letter (together (shape_of x.now)))) (shape_of x.now D) }
    ensures { result ≡ every (λ a. eqb a.extent (extent_of a.letter (together (shape_of x.now)))) (shape_of x.now C) }
{
    match x.c {
        Some(c) => extents_as(x, c.axes),
        None => d,
    }
}

// Question 6.
pub fn extents_agree(x: &Operands) -> bool
    ensures { result ≡ extents_agree (together (shape_of x.now)) }
{
    let d = extents_as(x, x.d.axes);
    d & (extents_as(x, x.a.axes) & (extents_as(x, x.b.axes) & extents_as_c(x, d)))
}

// Is the letter of each axis in the set? A `for` and no `all`: with a second closure the crate would be larger than the gate allows.
fn letters_in(t: Axes, set: u64) -> bool
    requires { t.count ≤ rank_limit }
    ensures { result ≡ every (λ a. has set a.letter) (listed t) }
{
    let axes = t.as_slice();
    for a in axes {
        if !has_letter(set, a.letter) {
            return false;
        }
    }
    true
}

// Question 30. Where C is not named, its letters are D's.
pub fn letters_same(x: &Operands) -> bool
    ensures { result ≡ letters_same (shape_of x.now C) (shape_of x.now D) }
{
    match x.c {
        Some(c) => letters_in(c.axes, x.d.letters.set) & letters_in(x.d.axes, c.letters.set),
        None => true,
    }
}

// Question 7. An extent 0 counts as 1, and the product stops growing just above the limit.
pub fn points_fit(x: &Operands) -> bool
    ensures { result ≡ points_fit (together (shape_of x.now)) }
{
    let letters = x.letters.as_slice();
    let mut product: u64 = 1;
    for c in letters {
        let extent = x.extent(u32::from(*c));
        product = (product * u64::from(extent.max(1))).min(Limits::PRODUCT + 1);
    }
    product <= Limits::PRODUCT
}
