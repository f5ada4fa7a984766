ghost use Rattle.std.specs.Prelude.{◌≡◌, map, ◌<◌, ◌+◌, get_or};
ghost use Rattle.words.specs.Words.{signed};
ghost use Rattle.layout.specs.Layout.{axes_of};
ghost use Rattle.flat.specs.FlatLayout.{letter_in, counted, axis_at, flat_layout};

use layout::layout::{Axis, Layout};
use limits::limits::Limits;
use words::signed;

// Where what stands in a layout's 28 words.
const LETTERS: usize = 0;

const EXTENTS: usize = 8;

const STRIDES: usize = 16;

const LETTER_COUNT: usize = 24;

const EXTENT_COUNT: usize = 25;

const STRIDE_COUNT: usize = 26;

const BASE: usize = 27;

// A letter's word: one that is no byte is read as letter 0, which question 3 refuses.
fn letter_of(word: u32) -> u32
    ensures { result ≡ letter_in word }
{
    u8::try_from(word).map_or(0, u32::from)
}

// Word i of those from one place on, or 0 where there are not so many.
fn word_at(words: &[u32; 28], from: usize, count: usize, i: usize) -> u32
    requires { (from + i < 28) × (count < 28) }
    ensures { result ≡ get_or (counted words.now from count) i 0 }
{
    if i < words[count] as usize {
        words[from + i]
    } else {
        0
    }
}

// Axis i; what is missing is 0.
fn axis_at(words: &[u32; 28], i: usize) -> Axis
    requires { i < 8 }
    ensures { result ≡ axis_at words.now i }
{
    Axis {
        letter: letter_of(word_at(words, LETTERS, LETTER_COUNT, i)),
        extent: word_at(words, EXTENTS, EXTENT_COUNT, i),
        stride: signed(word_at(words, STRIDES, STRIDE_COUNT, i)),
    }
}

// The first 8 axes.
fn axes_of(words: &[u32; 28]) -> [Axis; Limits::RANK]
    ensures { result ≡ axes_of
        (map letter_in (counted words.now 0 24))
        (counted words.now 8 25)
        (map (signed 32) (counted words.now 16 26)) }
{
    let mut axes = [Axis {
        letter: 0,
        extent: 0,
        stride: 0,
    }; Limits::RANK];
    for i in 0..Limits::RANK {
        axes[i] = axis_at(words, i);
    }
    axes
}

// The layout that 28 words say.
pub fn layout_of(words: &[u32; 28]) -> Layout
    ensures { result ≡ flat_layout words.now }
{
    Layout {
        axes: axes_of(words),
        letter_count: words[LETTER_COUNT] as usize,
        extent_count: words[EXTENT_COUNT] as usize,
        stride_count: words[STRIDE_COUNT] as usize,
        base: words[BASE],
    }
}
