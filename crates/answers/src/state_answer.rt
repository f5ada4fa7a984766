ghost use Rattle.std.specs.Prelude.{◌≡◌};
ghost use Rattle.answers.specs.StateAnswer.{state_answer};
ghost use Rattle.answers.specs.FlatState.{state_after};

use refusals::refusal::Refusal;
use tiles::grid::State;

// 0 old, 1 part, 2 final; as it was where the question was refused.
pub fn state_after(found: Result<State, Refusal>, before: u32) -> u32
    ensures { result ≡ state_after (state_answer found) before }
{
    match found {
        Ok(State::Old) => 0,
        Ok(State::Part) => 1,
        Ok(State::Final) => 2,
        Err(_) => before,
    }
}
