ghost use Rattle.std.specs.Prelude.{◌≡◌};
ghost use Rattle.refusals.specs.Numbers.{status};
ghost use Rattle.words.specs.Sums.{every};
ghost use Rattle.tensor_answers.specs.Asking.{refusal};
ghost use Rattle.scores.specs.DelayQuestions.{sample_fits, lags_fit, delay_questions};

use limits::limits::Limits;
use refusals::refusal::{Refusal, ask};

// Is a word, read as signed, a sample?
fn sample_fits(x: u32) -> bool
    ensures { result ≡ sample_fits x }
{
    let sample = words::signed(x);
    (Limits::LOW <= sample) & (sample <= Limits::HIGH)
}

// Question 32 of one recording: every sample, used by a score or not.
fn samples_fit(xs: &[u32]) -> bool
    ensures { result ≡ every sample_fits xs.now }
{
    xs.iter().all(|x| sample_fits(*x))
}

// Question 31, of recordings of n and m samples.
fn lags_fit(n: usize, m: usize, greatest_lag: u64) -> bool
    ensures { result ≡ lags_fit n m greatest_lag }
{
    if Limits::LAG < greatest_lag {
        return false;
    }
    let lag = greatest_lag as usize;
    (n == m) & ((lag < n) & (n <= lag + Limits::USED))
}

// Questions 31 and 32.
#[tactic(auto, unfolding(crate::specs::DelayQuestions::delay_questions))]
pub fn delay_refusal(x: &[u32], y: &[u32], greatest_lag: u64) -> Result<(), Refusal>
    ensures { status result ≡ refusal (delay_questions x.now y.now greatest_lag) }
{
    let lags = lags_fit(x.len(), y.len(), greatest_lag);
    let samples = samples_fit(x) & samples_fit(y);
    ask(lags, Refusal::Lags)?;
    ask(samples, Refusal::Samples)
}
