ghost use Rattle.std.specs.Prelude.{◌≡◌, ◌≤◌};
ghost use Rattle.limits.specs.Limits.{lag_limit};
ghost use Rattle.answers.specs.DelayAnswer.{delay_answer};
ghost use Rattle.scores.specs.Score.{signed_at};
ghost use Rattle.scores.specs.DelayCall.{delay_call};

use super::scoring::scores;
use answers::delay_answer::Found;
use limits::limits::Limits;
use refusals::refusal::Refusal;
use scores::best_lag::{best_lag, score_of};
use scores::delay_questions::delay_refusal;

// A lag and its score.
fn found(scores: &[u32; Limits::LAGS], lag: usize) -> Found
    requires { lag ≤ lag_limit }
    ensures { (result.lag ≡ lag) × (result.score ≡ signed_at scores.now lag) }
{
    Found {
        lag: lag as u64,
        score: score_of(scores[lag]),
    }
}

// The delay between two recordings: the lag from 0 to the greatest whose score is the greatest, the smallest such lag on a tie, and the score.
pub fn delay(x: &[u32], y: &[u32], greatest_lag: u64) -> Result<Found, Refusal>
    ensures { delay_answer result ≡ delay_call x.now y.now greatest_lag }
{
    delay_refusal(x, y, greatest_lag)?;
    let greatest = greatest_lag as usize;
    let all = scores(x, y, greatest);
    Ok(found(&all, best_lag(&all, greatest)))
}
