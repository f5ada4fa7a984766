ghost use Rattle.std.specs.Prelude.{◌≡◌, ◌≤◌, length};
ghost use Rattle.records.specs.RecordParts.{reading, ReadAs};
ghost use Rattle.jobfile.specs.Format.{read_job};
ghost use Rattle.jobfile.specs.JobParts.{c_at, c_in, CHeld, job_in, JobHeld};

use go::go::{Go, go_record};
use little_endian::numbers::Cursor;
use records::records::{Read, TensorParts, layout_begins};
use refusals::refusal::Refusal;
use tensor_records::tensor_records::tensor_records;

// Where the tensors of a job stand in its file, C where it names it, and what `GO` holds.
#[derive(Clone, Copy)]
pub struct JobParts {
    pub a: TensorParts,
    pub b: TensorParts,
    pub c: Option<TensorParts>,
    pub d: TensorParts,
    pub go: Go,
}

// Both records of C, where its layout begins here; else nothing is read.
fn c_records(file: &[u8], from: Cursor) -> Read<Option<TensorParts>>
    requires { from.at ≤ length file.now }
    ensures { ReadAs c_in CHeld file.now (reading result) (c_at file.now from.at) }
{
    if !layout_begins(file, from, b'C') {
        return Ok((None, from));
    }
    let (c, next) = tensor_records(file, from, b'C')?;
    Ok((Some(c), next))
}

// A job file, front to back: the job, and where it ends.
pub fn read_job(file: &[u8]) -> Read<JobParts>
    ensures { ReadAs job_in JobHeld file.now (reading result) (read_job file.now) }
{
    let (a, from) = tensor_records(file, Cursor { at: 0 }, b'A')?;
    let (b, from) = tensor_records(file, from, b'B')?;
    let (c, from) = c_records(file, from)?;
    let (d, from) = tensor_records(file, from, b'D')?;
    let (go, end) = go_record(file, from)?;
    if end.at != file.len() {
        return Err(Refusal::BytesBehind);
    }
    Ok((JobParts { a, b, c, d, go }, end))
}
