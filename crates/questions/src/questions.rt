ghost use Rattle.std.specs.Prelude.{◌≡◌, ◌++◌, IfSome, MatchOption};
ghost use Rattle.contraction.specs.Operands.{tensors, lengths};
ghost use Rattle.contraction.specs.TensorAxes.{Ready};
ghost use Rattle.refusals.specs.Numbers.{status};
ghost use Rattle.tensor_answers.specs.Asking.{refusal};
ghost use Rattle.tensor_answers.specs.OwnQuestions.{tensor_questions, entries_inside};
ghost use Rattle.tensor_answers.specs.Answers.{OwnOf, Passed, PassedOf};
ghost use Rattle.questions.specs.Questions.{lent_tensors, label_questions, entry_questions};
ghost use Rattle.questions.specs.ListedTensors.{ListedOf};

use apart::apart::all_apart;
use contraction::contraction::{Contraction, Lengths};
use contraction::operands::Operands;
use layout::layout::Layout;
use points::label_questions::{extents_agree, letters_same, points_fit};
use refusals::refusal::{Refusal, ask};
use tensor_answers::tensor_answers::{Asked, both, own_refusal};

// Questions 6, 30 and 7 to 9. `within` is the answer to question 8.
#[tactic(auto, using(crate::proofs::Later::read), unfolding(crate::specs::Questions::label_questions, crate::specs::Questions::entry_questions))]
fn later_refusal(c: &Contraction, n: Lengths, x: &Operands, within: bool) -> Result<(), Refusal>
    requires { Ready c.now x.now × (within ≡ entries_inside (lent_tensors (tensors c.now) (lengths c.now n))) }
    ensures { status result ≡ refusal (label_questions (tensors c.now) (lengths c.now n) ++ entry_questions (tensors c.now) (lengths c.now n)) }
{
    ask(extents_agree(x), Refusal::ExtentsAgree)?;
    ask(letters_same(x), Refusal::LettersOfC)?;
    ask(points_fit(x), Refusal::Points)?;
    ask(within, Refusal::Inside)?;
    ask(all_apart(&x.d), Refusal::Apart)
}

// What C answers to questions 1 to 5. Where C is not named, that is what D answers.
fn refusal_of_c(c: &Option<Layout>, n: usize, d: Result<(), Refusal>) -> Result<(), Refusal>
    ensures { MatchOption c.now (result ≡ d) (λ l. OwnOf l n result) }
{
    match c {
        Some(c) => own_refusal(c, n),
        None => d,
    }
}

// Questions 1 to 5. Each tensor answers for itself, and the answers are joined.
fn first_refusal(c: &Contraction, n: Lengths) -> Result<(), Refusal>
    ensures { status result ≡ refusal (tensor_questions (lent_tensors (tensors c.now) (lengths c.now n))) }
{
    let a = own_refusal(&c.a, n.a);
    let b = own_refusal(&c.b, n.b);
    let d = own_refusal(&c.d, n.d);
    let third = refusal_of_c(&c.c, n.c, d);
    both(&a, &both(&b, &both(&third, &d)))
}

// What C leaves. Where C is not named, that is what D leaves.
fn left_by_c(c: &Option<Layout>, n: usize, d: Asked) -> Asked
    requires { IfSome c.now (λ l. Passed l n) }
    ensures { MatchOption c.now (result ≡ d) (λ l. PassedOf l n result) }
{
    match c {
        Some(c) => Asked::left_by(c, n),
        None => d,
    }
}

// Questions 1 to 9: where none refuses, the lists of the tensors' axes.
pub fn first_no(c: &Contraction, n: Lengths) -> Result<Operands, Refusal>
    ensures { ListedOf c.now (lengths c.now n) result }
{
    first_refusal(c, n)?;
    let a = Asked::left_by(&c.a, n.a);
    let b = Asked::left_by(&c.b, n.b);
    let d = Asked::left_by(&c.d, n.d);
    let third = left_by_c(&c.c, n.c, d);
    let named = c.c.is_some().then_some(third.lists);
    let lists = Operands::of(a.lists, b.lists, named, d.lists);
    let inside = a.inside & (b.inside & (third.inside & d.inside));
    later_refusal(c, n, &lists, inside)?;
    Ok(lists)
}
