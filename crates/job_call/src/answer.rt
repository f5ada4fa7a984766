ghost use Rattle.std.specs.Prelude.{◌≤◌, length};
ghost use Rattle.limits.specs.Limits.{job_limit, text_room};
ghost use Rattle.contraction.specs.Operands.{four};
ghost use Rattle.tiles.specs.Cut.{total};
ghost use Rattle.tile_blocks.specs.ContractionInTiles.{cut_of};
ghost use Rattle.states.specs.StateLetters.{state_letters};
ghost use Rattle.tile_questions.specs.TileQuestions.{Accepted};
ghost use Rattle.report.specs.Text.{report_text};
ghost use Rattle.report.specs.Written.{Begins};
ghost use Rattle.job_call.specs.TileText.{tile_text};

use contraction::contraction::Contraction;
use limits::limits::Limits;
use report::report::{put_refused, put_report};
use states::after::letters_after;
use tiled::call::run;
use tiles::grid::Sizes;

// A tile call that ran t tiles: the letters of D's words, and the report with them; where the text ends.
fn put_ran(
    k: Contraction,
    z: Sizes,
    a: &[u32],
    b: &[u32],
    c: &[u32],
    d: &[u32],
    t: u64,
    out: &mut [u8],
) -> usize
    requires { Accepted k z (four a.now b.now c.now d.now) × (length d.now ≤ job_limit) × (text_room ≤ length out.old) }
    ensures { Begins out.old
        (report_text t (total (cut_of k z)) d.now
        (state_letters k z (four a.now b.now c.now d.now) t))
        result out.new }
{
    let n = d.len();
    let mut letters = [0u8; Limits::JOB];
    let total = letters_after(k, z, a, b, c, d, t, &mut letters[..n]);
    put_report(out, t, total, d, &letters[..n])
}

// One tile call with a work slice of zeros and what it answers, as text; where the text ends.
pub fn put_call(
    k: Contraction,
    z: Sizes,
    a: &[u32],
    b: &[u32],
    c: &[u32],
    d: &mut [u32],
    done: u64,
    budget: u64,
    out: &mut [u8],
) -> usize
    requires { (length d.old ≤ job_limit) × (text_room ≤ length out.old) }
    ensures { Begins out.old
        (tile_text k z (four a.now b.now c.now d.old) done budget) result out.new }
{
    let mut work = [0u32; Limits::WORK];
    let outcome = run(k, z, a, b, c, d, &mut work, done, budget);
    match outcome {
        Ok(ran) => put_ran(k, z, a, b, c, d, ran.done, out),
        Err(refusal) => put_refused(out, u32::from(refusal)),
    }
}
