ghost use Rattle.std.specs.Prelude.{◌≡◌};
ghost use Rattle.answers.specs.DelayAnswer.{delay_answer};
ghost use Rattle.answers.specs.FlatDelay.{lag_after, score_after};

use refusals::refusal::Refusal;

// What a delay call answers: a lag and its score.
#[derive(Clone, Copy)]
pub struct Found {
    pub lag: u64,
    pub score: i64,
}

// The lag; as it was where the call was refused. It, the score and the tiles done are read one by one, since C has a place for each.
pub fn lag_after(delay: Result<Found, Refusal>, before: u64) -> u64
    ensures { result ≡ lag_after (delay_answer delay) before }
{
    match delay {
        Ok(found) => found.lag,
        Err(_) => before,
    }
}

// Its score; as it was where the call was refused.
pub fn score_after(delay: Result<Found, Refusal>, before: i64) -> i64
    ensures { result ≡ score_after (delay_answer delay) before }
{
    match delay {
        Ok(found) => found.score,
        Err(_) => before,
    }
}
