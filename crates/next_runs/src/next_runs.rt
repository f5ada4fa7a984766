ghost use Rattle.std.specs.Prelude.{◌≡◌, true, ◌+◌, ◌*◌, ◌<◌, ◌≤◌, length, drop, IfSome};
ghost use Rattle.limits.specs.Limits.{labels_limit};
ghost use Rattle.offsets.specs.Offsets.{words_in};
ghost use Rattle.odometer.specs.Odometer.{Stands};
ghost use Rattle.sums.specs.Walk.{over};
ghost use Rattle.four_sums.specs.FourRunSums.{begins_of, Shared};
ghost use Rattle.next_runs.specs.NextRuns.{runs_of, SuitsFour, FillableFrom, Moved, Ahead};

use contraction::contraction::Operand;
use four_runs::four_runs::{fill_four, shares};
use four_sums::four_sums::NextRuns;
use limits::limits::Limits;
use odometer::odometer::{Row, advance};
use offsets::offsets::Offsets;
use output_words::output::Sources;
use outputs::outputs::fill_outputs;
use sums::tabled::TabledWalk;
use sums::walk::Run;

// Does it pay to look for four runs that share what is read of A? Not for a few outputs or depth counts, and not where A goes along with the second label.
pub fn suits_four(step: Offsets, len: u32, deep: u32, rows: &[Row]) -> bool
    ensures { (result ≡ true → SuitsFour step len deep rows.now)
        × (SuitsFour step len deep rows.now → result ≡ true) }
{
    if rows.is_empty() {
        return false;
    }
    let along = (step.of(Operand::A) == 1) & (step.of(Operand::B) == 0);
    let second = (rows[0].last > 2) & (rows[0].moves.of(Operand::A) == 0);
    (len > 7) & (deep > 3) & along & second
}

// Where the three runs after a run begin, if they share with it what is read of A. That is asked where it pays and so many runs are left.
fn look_ahead(
    fours: bool,
    left: u32,
    run: Run,
    digits: [u64; Limits::LABELS],
    rows: &[Row],
) -> Option<NextRuns>
    requires { (length digits ≡ labels_limit) × (length rows.now ≤ labels_limit) }
    ensures { IfSome result
        (λ next. (3 < left) × Shared (begins_of run next) run.step × Ahead rows.now digits (begins_of run next)) }
{
    if fours {
        if left > 3 {
            let mut ahead = digits;
            let second = advance(run.from, &mut ahead, rows);
            let third = advance(second, &mut ahead, rows);
            let fourth = advance(third, &mut ahead, rows);
            let next = NextRuns {
                second,
                third,
                fourth,
            };
            if shares(run, next) {
                return Some(next);
            }
        }
    }
    None
}

// Where a run of a walk begins: the run's number, the address words there, and the digits of the labels behind the run's own.
#[derive(Clone, Copy)]
pub struct RunStart {
    pub run: u32,
    pub at: Offsets,
    pub digits: [u64; Limits::LABELS],
}

// The words of D of a run, or of the run and the next three where these share what is read of A. Answers how many runs it filled.
pub fn fill_next(
    x: &Sources,
    d: &mut [u32],
    base: Offsets,
    output: &TabledWalk,
    depth: &TabledWalk,
    start: &RunStart,
    fours: bool,
) -> u32
    requires { FillableFrom x.now base output.now.walk depth.now.walk (length d.old)
        × (length start.now.digits ≡ labels_limit)
        × (start.now.run < output.now.walk.runs)
        × Stands (drop 1 (over output.now.walk)) (words_in base) start.now.run start.now.digits start.now.at }
    ensures { (1 ≤ result)
        × (start.now.run + result ≤ output.now.walk.runs)
        × (d.new ≡ runs_of x.now base output.now.walk depth.now.walk start.now.run result d.old) }
{
    let run = Run {
        from: start.at,
        step: output.walk.step,
        len: output.walk.len,
    };
    match look_ahead(
        fours,
        output.walk.runs - start.run,
        run,
        start.digits,
        output.rows,
    ) {
        Some(next) => {
            fill_four(x, d, run, next, depth);
            4
        }
        None => {
            fill_outputs(x, d, run, depth);
            1
        }
    }
}

// From the digits and address words of a run to those of the n-th after it.
pub fn advance_by(from: Offsets, digits: &mut [u64], rows: &[Row], n: u32) -> Offsets
    requires { length rows.now ≤ length digits.old }
    ensures { Moved n rows.now digits.old digits.new from result }
{
    let mut at = from;
    for _i in 0..n {
        at = advance(at, digits, rows);
    }
    at
}
