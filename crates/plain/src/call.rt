ghost use Rattle.std.specs.Prelude.{◌≡◌};
ghost use Rattle.contraction.specs.Operands.{four};
ghost use Rattle.answers.specs.PlainAnswer.{plain_answer, plain_call_of};
ghost use Rattle.plain.specs.PlainCall.{plain_call};

use contraction::contraction::{Contraction, Lengths};
use direct::fill::fill;
use folding::fold::fold_into;
use groups::groups::{Group, groups_of};
use output_words::output::Sources;
use plan::plan::base_of;
use questions::questions::first_no;
use refusals::refusal::Refusal;
use sums::walk::walk_of;

// Questions 1 to 9; where all pass, D's words become the contraction's. A refusal changes no word. C is read where it is named.
pub fn contract(
    k: Contraction,
    a: &[u32],
    b: &[u32],
    c: &[u32],
    d: &mut [u32],
) -> Result<(), Refusal>
    ensures { plain_call_of (plain_answer result) d.new
        ≡ plain_call k (four a.now b.now c.now d.old) }
{
    let n = Lengths {
        a: a.len(),
        b: b.len(),
        c: c.len(),
        d: d.len(),
    };
    let lists = first_no(&k, n)?;
    let sets = groups_of(&lists);
    // Made in their places: as results they would be copied twice, a kilobyte each.
    let mut output = Group::none();
    fold_into(&mut output, &lists, lists.d.letters.set);
    let mut depth = Group::none();
    fold_into(&mut depth, &lists, sets.depth);
    let x = Sources {
        a,
        b,
        c: k.c.and(Some(c)),
        alpha: k.alpha,
        beta: k.beta,
    };
    fill(&x, d, base_of(&k), walk_of(&output), walk_of(&depth));
    Ok(())
}
