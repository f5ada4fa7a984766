ghost use Rattle.std.specs.Prelude.{◌≡◌, ◌≤◌};
ghost use Rattle.words.specs.Words.{signed};
ghost use Rattle.limits.specs.Limits.{lag_limit};
ghost use Rattle.scores.specs.Score.{signed_at, best};

use limits::limits::Limits;

// The score that a word holds: the word read as signed.
pub fn score_of(word: u32) -> i64
    ensures { result ≡ signed 32 word }
{
    i64::from(words::signed(word))
}

// The smallest of the lags 0 to `greatest` with the greatest score.
pub fn best_lag(scores: &[u32; Limits::LAGS], greatest: usize) -> usize
    requires { greatest ≤ lag_limit }
    ensures { result ≡ best (signed_at scores.now) greatest }
{
    let mut lag = 0;
    for l in 0..greatest {
        if score_of(scores[lag]) < score_of(scores[l + 1]) {
            lag = l + 1;
        }
    }
    lag
}
