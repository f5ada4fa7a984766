ghost use Rattle.std.specs.Prelude.{◌≡◌, ℕ, ◌+◌, ◌%◌, ◌<◌, ◌≤◌, true, ◌||◌, List, [], ◌++◌, ◌==◌};
ghost use Rattle.limits.specs.Limits.{rank_limit, letters_limit};
ghost use Rattle.layout.specs.declared.layout.Axis.{Axis};
ghost use Rattle.layout.specs.Listed.{listed};
ghost use Rattle.validity.specs.Letters.{is_letter};
ghost use Rattle.validity.specs.Checked.{Checked};
ghost use Rattle.labels.specs.LetterSets.{has, spelled, Spells, added};
ghost use Rattle.labels.specs.Labels.{labels};

use layout::axes::Axes;
use limits::limits::Limits;

// Different letters in order, beside the set of them as bits of a 64-bit word. Stays an array with its count: there is no heap, and `spelled` reads both.
#[derive(Clone, Copy)]
pub struct Letters {
    pub letters: [u8; Limits::LETTERS],
    pub count: usize,
    pub set: u64,
}

// A letter of a list, as a word.
pub fn wide(c: u8) -> u32
    ensures { result ≡ c }
{
    u32::from(c)
}

// Does the set have the letter?
pub fn has_letter(set: u64, c: u32) -> bool
    ensures { result ≡ has set c }
{
    (set >> (c % 64)) % 2 == 1
}

fn insert(set: u64, c: u32) -> u64
    ensures { (d : ℕ) → has result d ≡ (d % 64 == c % 64 || has set d) }
{
    set | 1u64 << (c % 64)
}

impl Letters {
    // The letters as a slice.
    pub fn as_slice(&self) -> &[u8]
        requires { self.now.count ≤ letters_limit }
        ensures { result.now ≡ spelled self.now }
    {
        &self.letters[..self.count]
    }

    pub fn none() -> Letters
        ensures { Spells result [] }
    {
        Letters {
            letters: [0; Limits::LETTERS],
            count: 0,
            set: 0,
        }
    }

    // The letters with one more behind them, unless they have it.
    fn with(self, c: u32) -> Letters
        requires { Spells self (spelled self) × (self.count < letters_limit) × (is_letter c ≡ true) }
        ensures { Spells result (added c (spelled self)) × (result.count ≤ self.count + 1) }
    {
        let set = self.set;
        if has_letter(set, c) {
            return self;
        }
        let n = self.count;
        let mut letters = self.letters;
        letters[n] = c as u8;
        Letters {
            letters,
            count: n + 1,
            set: insert(set, c),
        }
    }

    // The letters with those of axes behind them, each unless it is there, in order of first appearance.
    pub fn with_axes(self, x: Axes) -> Letters
        requires { Spells self (spelled self) × Checked x × (self.count + rank_limit ≤ letters_limit) }
        ensures { ((xs : List Axis) → Spells self (labels xs) → Spells result (labels (xs ++ listed x)))
            × (result.count ≤ self.count + x.count) }
    {
        let axes = x.as_slice();
        let mut all = self;
        for a in axes {
            all = all.with(a.letter);
        }
        all
    }
}
