ghost use Rattle.std.specs.Prelude.{◌≡◌, length};
ghost use Rattle.words.specs.Loops.{each};
ghost use Rattle.groups.specs.Groups.{size};
ghost use Rattle.sums.specs.Walk.{places, over};
ghost use Rattle.output_run.specs.FilledOutput.{filled_of};
ghost use Rattle.next_runs.specs.NextRuns.{FillableFrom};

use limits::limits::Limits;
use next_runs::next_runs::{RunStart, advance_by, fill_next, suits_four};
use odometer::odometer::{Row, tabulate};
use offsets::offsets::Offsets;
use output_words::output::Sources;
use sums::tabled::TabledWalk;
use sums::walk::Walk;

// Every word of D that an output count addresses, a run or four after the other: the address words are carried from each to the next.
pub fn fill(x: &Sources, d: &mut [u32], base: Offsets, output: Walk, depth: Walk)
    requires { FillableFrom x.now base output depth (length d.old) }
    ensures { d.new
        ≡ each (size (over output.entry)) (λ m. filled_of x.now (over depth.entry) (places base (over output.entry) m)) d.old }
{
    let mut output_table = [Row::none(); Limits::LABELS];
    let mut depth_table = [Row::none(); Limits::LABELS];
    let rows = tabulate(output.group, &mut output_table);
    let depth_rows = tabulate(depth.group, &mut depth_table);
    let outputs = TabledWalk { walk: output, rows };
    let depths = TabledWalk {
        walk: depth,
        rows: depth_rows,
    };
    let fours = suits_four(output.step, output.len, depth.len, rows);
    let mut start = RunStart {
        run: 0,
        at: base,
        digits: [0u64; Limits::LABELS],
    };
    // Stays a while: a turn goes on by as many runs as it filled, one or four; a for has no such step.
    while start.run < output.runs {
        let n = fill_next(x, d, base, &outputs, &depths, &start, fours);
        start.at = advance_by(start.at, &mut start.digits, rows, n);
        start.run += n;
    }
}
