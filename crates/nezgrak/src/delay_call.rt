ghost use Rattle.std.specs.Prelude.{◌≡◌};
ghost use Rattle.answers.specs.FlatDelay.{delay_returned, flat_delay};
ghost use Rattle.scores.specs.DelayCall.{delay_call};

use answers::delay_answer::{lag_after, score_after};
use answers::status::status_of;
use delay::call::delay;

// The delay between two recordings: the lag from 0 to the greatest with the greatest score, the smallest such lag on a tie, and the score. Samples are words
// read as signed.
#[tactic(auto, using(crate::proofs::Handed::delay_handed))]
#[unsafe(no_mangle)]
pub extern "C" fn nezgrak_delay(
    x: &[u32],
    y: &[u32],
    greatest_lag: u64,
    lag: &mut u64,
    score: &mut i64,
) -> u32
    ensures { delay_returned result lag.new score.new
        ≡ flat_delay lag.old score.old (delay_call x.now y.now greatest_lag) }
{
    let found = delay(x, y, greatest_lag);
    *lag = lag_after(found, *lag);
    *score = score_after(found, *score);
    status_of(found)
}
