// nezgrak_job [FILE]: prints the answer to the job file FILE, or to standard input where there is no argument.
#![tactic(auto)]

ghost use Rattle.std.specs.Prelude.{◌≡◌, ◌+◌, ◌≤◌, length, take, drop, IfOk, OnOk, IfSome};
ghost use Rattle.std.specs.Io.{ReadsAtMost};
ghost use Rattle.std.specs.Io.KnownBytes.{ReadConsumes, Appends};
ghost use Rattle.job.specs.Run.{job_text};

use limits::limits::Limits;
use std::env::{Env, FillError};
use std::io::{ErrorKind, Read, Write};
use std::rt::Files;
use std::str::from_utf8;
use std::{fs, io};

// The bytes of the longest name that the system opens, with its end.
const PATH: usize = 4096;

// Why there is no answer: its file could not be read, or the answer not be written.
#[derive(Drop)]
enum Fault {
    Reading(io::Error),
    Writing(io::Error),
}

// One read, into the buffer from `at` on.
fn read_on<R: Read>(from: &mut R, buf: &mut [u8], at: usize) -> io::Result<usize>
    requires { at ≤ length buf.old }
    ensures bound { IfOk result (λ n. at + n ≤ length buf.new) }
    ensures before { take at buf.new ≡ take at buf.old }
    ensures bytes { ReadConsumes (R.remaining from.old) (R.remaining from.new) result
        (drop at buf.new) }
{
    from.read(&mut buf[at..])
}

// Fills the buffer from a reader, as far as both go; how many bytes that are.
fn load<R: Read>(from: &mut R, buf: &mut [u8]) -> io::Result<usize>
    ensures bound { ReadsAtMost result buf.new }
    ensures bytes { IfOk result (λ n. IfSome (R.remaining from.old)
        (λ bytes. take n buf.new ≡ take (length buf.new) bytes)) }
{
    let mut at: usize = 0;
    // Stays a while: a turn goes on by as many bytes as the read gave; a for has no such step.
    while at < buf.len() {
        let more = read_on(from, buf, at)?;
        if more == 0 {
            return Ok(at);
        }
        at += more;
    }
    Ok(at)
}

// Puts the text that answers a reader's bytes at the start of `text`; how long it is. No accepted job file is as long as the buffer, so that what is left of
// a longer one changes nothing in the answer.
fn put_answer<R: Read>(from: &mut R, text: &mut [u8; Limits::TEXT]) -> io::Result<usize>
    ensures bound { ReadsAtMost result text.new }
    ensures value { IfOk result (λ n. IfSome (R.remaining from.old)
        (λ bytes. take n text.new ≡ job_text bytes)) }
{
    let mut file = [0u8; Limits::FILE];
    let n = load(from, &mut file)?;
    Ok(job::run::run(&file[..n], text))
}

// Writes the text that answers a reader's bytes.
fn answer<R: Read, W: Write>(from: &mut R, to: &mut W) -> Result<(), Fault>
    ensures { OnOk result (IfSome (R.remaining from.old)
        (λ bytes. Appends (W.contents to.old) (W.contents to.new) (job_text bytes))) }
{
    let mut text = [0u8; Limits::TEXT];
    let n = put_answer(from, &mut text).map_err(Fault::Reading)?;
    to.write_all(&text[..n]).map_err(Fault::Writing)?;
    to.flush().map_err(Fault::Writing)
}

// The same for the file of this name.
fn answer_file<F: Files, W: Write>(files: &F, name: &[u8], to: &mut W) -> Result<(), Fault> {
    let Ok(path) = from_utf8(name) else {
        let error = io::Error::new(ErrorKind::InvalidInput, "the name is not UTF-8");
        return Err(Fault::Reading(error));
    };
    let mut file = fs::open(files, path).map_err(Fault::Reading)?;
    answer(&mut file, to)
}

// Says what failed, and why. Where that can't be written either, it stays unsaid.
fn say<E: Print>(errors: &E, what: &[u8], why: io::Error) {
    if errors.write_all(what).is_ok() {
        let _ = errors.println(format_args!(": {why}"));
    }
}

// No Display of a Fault: what is said first is the file's name, which the fault does not hold.
fn say_fault<E: Print>(errors: &E, name: &[u8], answered: Result<(), Fault>) {
    match answered {
        Ok(()) => {}
        Err(Fault::Reading(error)) => say(errors, name, error),
        Err(Fault::Writing(error)) => say(errors, b"standard output", error),
    }
}

fn main(rt: HostRuntime) {
    let errors = rt.stderr();
    let mut to = rt.stdout();
    let mut name = [0u8; PATH];
    if !matches!(rt.arg(2, &mut name), Err(FillError::NotPresent)) {
        let _ = eprintln!(rt; "usage: nezgrak_job [FILE]");
        return;
    }
    match rt.arg(1, &mut name) {
        Ok(n) => say_fault(&errors, &name[..n], answer_file(&rt, &name[..n], &mut to)),
        Err(FillError::NotPresent) => say_fault(
            &errors,
            b"standard input",
            answer(&mut rt.stdin(), &mut to),
        ),
        Err(FillError::TooLong) => say(
            &errors,
            b"FILE",
            io::Error::new(ErrorKind::InvalidFilename, "File name too long"),
        ),
    }
}
