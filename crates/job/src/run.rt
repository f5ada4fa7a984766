ghost use Rattle.std.specs.Prelude.{◌≡◌, ◌≤◌, length};
ghost use Rattle.io.specs.Counts.{IsPrefixLen};
ghost use Rattle.limits.specs.Limits.{text_room};
ghost use Rattle.jobfile.specs.JobParts.{job_in, JobHeld};
ghost use Rattle.report.specs.Written.{written, Begins};
ghost use Rattle.job.specs.Run.{run_text, job_text};

use decode::decode::{contraction_in, job_words};
use job_call::answer::put_call;
use jobfile::reader::{JobParts, read_job};
use limits::limits::Limits;
use report::report::put_refused;

// A job that was read: its words in arrays of its own, one call. Where C is not named, D's words stand for its own.
fn put_job(file: &[u8], job: JobParts, out: &mut [u8]) -> usize
    requires { JobHeld file.now job × (text_room ≤ length out.old) }
    ensures { Begins out.old (run_text (job_in file.now job)) result out.new }
{
    let words_c = job.c.unwrap_or(job.d).words;
    let k = contraction_in(file, job);
    let a = job_words(file, job.a.words);
    let b = job_words(file, job.b.words);
    let c = job_words(file, words_c);
    let mut d = job_words(file, job.d.words);
    put_call(
        k,
        job.go.sizes,
        &a[..job.a.words.count],
        &b[..job.b.words.count],
        &c[..words_c.count],
        &mut d[..job.d.words.count],
        job.go.done,
        job.go.budget,
        out,
    )
}

// The text that answers a job file, at the start of `out`; how long it is.
pub fn run(file: &[u8], out: &mut [u8; Limits::TEXT]) -> usize
    ensures value { (result ≡ length (job_text file.now))
        × (out.new ≡ written out.old 0 (job_text file.now)) }
    ensures prefix_len { IsPrefixLen result out.new }
{
    match read_job(file) {
        Ok((parts, _)) => put_job(file, parts, out),
        Err(refusal) => put_refused(out, u32::from(refusal)),
    }
}
