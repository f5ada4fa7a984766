ghost use Rattle.tensor_answers.specs.Answers.{BothOf, OwnOf, Passed, PassedOf, AskedOf};

use entries::inside::all_inside;
use labels::labelled::Labelled;
use layout::axes::Axes;
use layout::layout::Layout;
use refusals::refusal::{Refusal, ask};
use validity::tensor_questions::{counts_match, rank_fits, sizes_valid, valid_of};

// What a tensor leaves that passes questions 1 to 5: its axes in a list beside their letters, and the answer to question 8,
// which is asked later, and no flag for the lists.
#[derive(Clone, Copy)]
pub struct Asked {
    pub lists: Labelled,
    pub inside: bool,
}

// Did questions 1 to 5 pass of both? Where both are refused, the one that is asked sooner refuses. What they leave stays where it is: it is large.
#[tactic(auto, using(crate::proofs::Sooner::first_passes, crate::proofs::Sooner::second_passes))]
pub fn both<S: Copy, T: Copy>(a: &Result<S, Refusal>, b: &Result<T, Refusal>) -> Result<(), Refusal>
    ensures { BothOf a.now b.now result }
{
    match (a, b) {
        (Ok(_), Ok(_)) => Ok(()),
        (Ok(_), Err(refusal)) => Err(*refusal),
        (Err(refusal), Ok(_)) => Err(*refusal),
        (Err(first), Err(second)) => Err((*first).min(*second)),
    }
}

// Questions 1 to 5 of a tensor, from its layout and the length of its slice. They answer without the lists, which are made once the tensors passed:
// a result that carries them would be copied each time that it is handed on.
#[tactic(auto, unfolding(crate::specs::OwnQuestions::tensor_questions))]
pub fn own_refusal(l: &Layout, length: usize) -> Result<(), Refusal>
    ensures { OwnOf l.now length result }
{
    ask(rank_fits(*l), Refusal::Rank)?;
    ask(counts_match(*l), Refusal::Counts)?;
    let axes = Axes::of(*l);
    let v = valid_of(axes);
    ask(v.letters, Refusal::Letters)?;
    ask(v.extents, Refusal::Extents)?;
    ask(sizes_valid(*l, v.strides, length), Refusal::Sizes)
}

impl Asked {
    // What a tensor leaves of which questions 1 to 5 passed.
    pub fn left_by(l: &Layout, length: usize) -> Asked
        requires { Passed l.now length }
        ensures { PassedOf l.now length result }
    {
        let axes = Axes::of(*l);
        let lists = Labelled::of(axes);
        Asked {
            lists,
            inside: all_inside(&lists, l.base, length),
        }
    }

    // Both at once: the first of questions 1 to 5 that a tensor fails, or what it leaves.
    pub fn of(l: Layout, length: usize) -> Result<Asked, Refusal>
        ensures { AskedOf l length result }
    {
        own_refusal(&l, length)?;
        Ok(Asked::left_by(&l, length))
    }
}

#[cfg(test)]
mod tests {
    use super::*;

    // The number that refuses a tensor; of one that passes 100 where its entries are inside its slice, and 101 where they are not.
    fn answer(l: Layout, length: usize) -> u32 {
        match Asked::of(l, length) {
            Ok(asked) => 101 - u32::from(asked.inside),
            Err(refusal) => u32::from(refusal),
        }
    }

    #[test]
    fn one_tensor(rt: HostRuntime) {
        let matrix = Layout::new(b"ik", &[2, 3], &[1, 2], 1);
        assert_eq!(rt; answer(matrix, 7), 100, "its last entry is word 6");
        assert_eq!(rt; answer(matrix, 6), 101, "one word is missing");
        assert_eq!(rt;
            answer(matrix, 16777217),
            5,
            "a slice of more than 2^24 words"
        );
        let many = Layout::new(b"abcdefghi", &[1, 1, 1, 1, 1, 1, 1, 1, 1], &[1], 0);
        assert_eq!(rt; answer(many, 1), 1, "nine letters, and one stride");
        let counts = Layout::new(b"i1", &[2], &[1, 2], 0);
        assert_eq!(rt; answer(counts, 9), 2, "two letters and one extent");
        let letters = Layout::new(b"i1", &[2, 65537], &[1, 2], 0);
        assert_eq!(rt;
            answer(letters, 9),
            3,
            "a digit for a letter, and an extent too large"
        );
        let extents = Layout::new(b"ik", &[2, 65537], &[1, 16777217], 0);
        assert_eq!(rt; answer(extents, 9), 4, "an extent and a stride too large");
        let strides = Layout::new(b"ik", &[2, 3], &[1, -16777217], 0);
        assert_eq!(rt; answer(strides, 9), 5, "a stride too far down");
        if let Ok(asked) = Asked::of(matrix, 7) {
            assert_eq!(rt; asked.lists.axes.count, 2, "two axes");
            assert_eq!(rt; asked.lists.letters.count, 2, "two letters");
        }
    }
}
