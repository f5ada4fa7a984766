ghost use Rattle.std.specs.Prelude.{◌≡◌, unwrap_or, MatchOption, List, ◌++◌, ◌+◌, ◌≤◌};
ghost use Rattle.limits.specs.Limits.{rank_limit, letters_limit};
ghost use Rattle.layout.specs.declared.layout.Axis.{Axis};
ghost use Rattle.layout.specs.Listed.{listed};
ghost use Rattle.labels.specs.Labels.{extent_of, labels};
ghost use Rattle.labels.specs.LetterSets.{spelled, Spells};
ghost use Rattle.contraction.specs.Operands.{four, together};
ghost use Rattle.contraction.specs.GatheredBy.{GatheredBy};

use labels::labelled::Labelled;
use labels::labels::{extent_of, extent_or};
use labels::letter_sets::Letters;

// The axes of each tensor beside their letters, and the different letters of all: D's, then A's, B's and C's.
#[derive(Clone, Copy)]
pub struct Operands {
    pub a: Labelled,
    pub b: Labelled,
    pub c: Option<Labelled>,
    pub d: Labelled,
    pub letters: Letters,
    pub ghost gathered: { GatheredBy (four a b (unwrap_or c d) d) letters },
}

// Letters with those of C's axes behind them. Where C is not named, D stands for it, whose letters are there already.
fn letters_with_c(letters: Letters, c: Option<Labelled>) -> Letters
    requires { Spells letters (spelled letters) × (letters.count + rank_limit ≤ letters_limit) }
    ensures { MatchOption c
        (result ≡ letters)
        (λ l. (xs : List Axis) → Spells letters (labels xs) → Spells result (labels (xs ++ listed l.axes))) }
{
    match c {
        Some(c) => letters.with_axes(c.axes),
        None => letters,
    }
}

impl Operands {
    ghost use Rattle.contraction.specs.TensorAxes.{shape_of, Held};

    pub fn of(a: Labelled, b: Labelled, c: Option<Labelled>, d: Labelled) -> Operands
        ensures { Held (four a b (unwrap_or c d) d) result }
    {
        let letters = d.letters.with_axes(a.axes).with_axes(b.axes);
        Operands {
            a,
            b,
            c,
            d,
            letters: letters_with_c(letters, c),
        }
    }

    // The extent of a letter where it first occurs in C, 1 where it is absent or C is not named.
    fn extent_in_c(&self, c: u32) -> u32
        ensures { MatchOption self.now.c (result ≡ 1) (λ l. result ≡ extent_of c (listed l.axes)) }
    {
        match self.c {
            Some(l) => extent_of(l.axes, c),
            None => 1,
        }
    }

    // The extent of a label: that of its letter where it first occurs.
    pub fn extent(&self, c: u32) -> u32
        ensures { result ≡ extent_of c (together (shape_of self.now)) }
    {
        extent_or(
            self.d.axes,
            c,
            extent_or(
                self.a.axes,
                c,
                extent_or(self.b.axes, c, self.extent_in_c(c)),
            ),
        )
    }
}
