ghost use Rattle.std.specs.Prelude.{◌≡◌, length};
ghost use Rattle.records.specs.RecordParts.{layout_in, words_of, LayoutHeld, WordsHeld};
ghost use Rattle.jobfile.specs.JobParts.{job_in, JobHeld};
ghost use Rattle.decode.specs.JobValues.{contraction_in};
ghost use Rattle.decode.specs.AtFront.{AtFront};

use contraction::contraction::Contraction;
use jobfile::reader::JobParts;
use layout::layout::Layout;
use limits::limits::Limits;
use little_endian::numbers::{four_bytes, read_bytes, read_signed, read_words};
use records::records::{LayoutPart, WordsPart};

// The layout that stands at a part of the file.
pub fn layout_in(file: &[u8], part: LayoutPart) -> Layout
    requires { LayoutHeld file.now part }
    ensures { result ≡ layout_in file.now part }
{
    let LayoutPart { at, rank } = part;
    let mut extents = [0u32; Limits::RANK];
    let mut strides = [0i32; Limits::RANK];
    read_words(file, at + rank, &mut extents[..rank]);
    read_signed(file, at + 5 * rank, &mut strides[..rank]);
    let base = four_bytes(file, at + 9 * rank);
    Layout::new(
        &file[at..at + rank],
        &extents[..rank],
        &strides[..rank],
        base,
    )
}

// The words that stand at a part of the file, into a slice for as many. A test and no closure: the width is known only once the file is read, and a closure
// would only move this test to the caller.
fn words_in(file: &[u8], part: WordsPart, out: &mut [u32])
    requires { WordsHeld file.now part × (length out.old ≡ part.count) }
    ensures { out.new ≡ words_of file.now part }
{
    if part.width == 4 {
        read_words(file, part.at, out);
    } else {
        read_bytes(file, part.at, out);
    }
}

// The words that stand at a part of the file, at the front of an array that holds any tensor's. Stays an array, its length in the part: no heap.
pub fn job_words(file: &[u8], part: WordsPart) -> [u32; Limits::JOB]
    requires { WordsHeld file.now part }
    ensures { AtFront file.now part result }
{
    let mut words = [0u32; Limits::JOB];
    words_in(file, part, &mut words[..part.count]);
    words
}

// The contraction of a job's layouts and factors.
pub fn contraction_in(file: &[u8], job: JobParts) -> Contraction
    requires { JobHeld file.now job }
    ensures { result ≡ contraction_in (job_in file.now job) }
{
    Contraction::of(
        layout_in(file, job.a.layout),
        layout_in(file, job.b.layout),
        job.c.map(|c| layout_in(file, c.layout)),
        layout_in(file, job.d.layout),
        job.go.alpha,
        job.go.beta,
    )
}
