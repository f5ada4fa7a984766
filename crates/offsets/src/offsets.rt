ghost use Rattle.std.specs.Prelude.{◌≡◌, ◌+◌, ◌-◌, ◌*◌, ◌^◌};
ghost use Rattle.words.specs.Words.{word_of};
ghost use Rattle.groups.specs.Held.{as_label};
ghost use Rattle.offsets.specs.Offsets.{words_in, Words};

use contraction::contraction::{Contraction, Operand};
use groups::groups::Dim;

// For each tensor an address, or how far one moves: 64-bit address words that wrap.
#[derive(Clone, Copy)]
pub struct Offsets {
    pub words: [u64; Contraction::TENSORS],
}

impl Offsets {
    // A tensor's word.
    pub fn of(self, o: Operand) -> u64
        ensures { result ≡ words_in self o }
    {
        self.words[o.place()]
    }

    // No offset.
    pub fn none() -> Offsets
        ensures { Words result (λ o. 0) }
    {
        let words = [0u64; Contraction::TENSORS];
        Offsets { words }
    }

    // Moved by as much as the other says.
    pub fn plus(self, by: Offsets) -> Offsets
        ensures { Words result (λ o. words_in self o + words_in by o) }
    {
        let mut words = self.words;
        for o in 0..Contraction::TENSORS {
            words[o] = self.words[o].wrapping_add(by.words[o]);
        }
        Offsets { words }
    }

    // Moved back by as much as the other says.
    pub fn minus(self, by: Offsets) -> Offsets
        ensures { Words result (λ o. words_in self o + (2 ^ 64 - words_in by o)) }
    {
        let mut words = self.words;
        for o in 0..Contraction::TENSORS {
            words[o] = self.words[o].wrapping_sub(by.words[o]);
        }
        Offsets { words }
    }

    // That many times as much.
    pub fn times(self, n: u32) -> Offsets
        ensures { Words result (λ o. n * words_in self o) }
    {
        let mut words = self.words;
        for o in 0..Contraction::TENSORS {
            words[o] = words::scale(n, self.words[o]);
        }
        Offsets { words }
    }

    // A value of a label times its strides.
    pub fn along(l: Dim, value: u32) -> Offsets
        ensures { Words result (λ o. value * word_of 64 ((as_label l).stride o)) }
    {
        let words = l.strides;
        let step = Offsets { words };
        step.times(value)
    }
}
