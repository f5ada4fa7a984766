ghost use Rattle.std.specs.Prelude.{◌≡◌, ℕ, ◌≤◌};
ghost use Rattle.tensor_answers.specs.Asking.{refusal};
ghost use Rattle.scores.specs.Score.{signed_at, score};
ghost use Rattle.scores.specs.DelayQuestions.{delay_questions};
ghost use Rattle.delay.specs.Scoring.{one_label, two_labels, scoring};

use contraction::contraction::Contraction;
use layout::layout::Layout;
use limits::limits::Limits;
use plain::call::contract;

// The letters of the lag and of the sample.
const LAG: u8 = 108;

const SAMPLE: u8 = 116;

// Word after word, with one label. Its letter is a byte, as in every layout that is handed in.
fn one_label(letter: u8, extent: u32) -> Layout
    ensures { result ≡ one_label letter extent }
{
    Layout::new(&[letter], &[extent], &[1], 0)
}

// Word after word, with the labels of the lag and of the sample.
fn two_labels(lags: u32, used: u32) -> Layout
    ensures { result ≡ two_labels lags used }
{
    Layout::new(&[LAG, SAMPLE], &[lags, used], &[1, 1], 0)
}

// The contraction that scores: over X with both labels and Y with the sample's; D has the lag's.
fn scoring_of(lags: u32, used: u32) -> Contraction
    ensures { result ≡ scoring lags used }
{
    let x = two_labels(lags, used);
    let y = one_label(SAMPLE, used);
    let d = one_label(LAG, lags);
    Contraction::new(x, y, d, 1, 0)
}

// The scores of the lags 0 to `greatest` as words.
pub fn scores(x: &[u32], y: &[u32], greatest: usize) -> [u32; Limits::LAGS]
    requires { refusal (delay_questions x.now y.now greatest) ≡ 0 }
    ensures { (l : ℕ) → l ≤ greatest → signed_at result l ≡ score x.now y.now greatest l }
{
    let k = scoring_of(greatest as u32 + 1, (x.len() - greatest) as u32);
    let mut d = [0u32; Limits::LAGS];
    // C is not named: what stands in its place is not read.
    let _ = contract(k, x, y, x, &mut d);
    d
}
