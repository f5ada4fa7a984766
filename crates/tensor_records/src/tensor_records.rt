ghost use Rattle.std.specs.Prelude.{◌≡◌, ◌≤◌, length};
ghost use Rattle.records.specs.Records.{words_record, tensor_records};
ghost use Rattle.records.specs.RecordParts.{reading, words_of, tensor_in, WordsHeld, TensorHeld, ReadAs};

use limits::limits::Limits;
use little_endian::numbers::{Cursor, four_bytes};
use records::records::{Read, TensorParts, WordsPart, kind_at, layout_record, need};
use refusals::refusal::Refusal;

// The words of the tensor with this letter.
fn words_record(file: &[u8], from: Cursor, letter: u8) -> Read<WordsPart>
    requires { from.at ≤ length file.now }
    ensures { ReadAs words_of WordsHeld file.now (reading result) (words_record file.now letter from.at) }
{
    let at = from.at;
    let kind = kind_at(file, from)?;
    let width = kind.word_width(letter).ok_or(Refusal::Mark)?;
    need(file, from, 6)?;
    let count = four_bytes(file, at + 2) as usize;
    if count > Limits::JOB {
        return Err(Refusal::WordCount);
    }
    let size = 6 + width * count;
    need(file, from, size)?;
    let part = WordsPart {
        at: at + 6,
        count,
        width,
    };
    Ok((part, Cursor { at: at + size }))
}

// Both records of the tensor with this letter.
pub fn tensor_records(file: &[u8], from: Cursor, letter: u8) -> Read<TensorParts>
    requires { from.at ≤ length file.now }
    ensures { ReadAs tensor_in TensorHeld file.now (reading result)
        (tensor_records file.now letter from.at) }
{
    let (layout, next) = layout_record(file, from, letter)?;
    let (words, end) = words_record(file, next, letter)?;
    Ok((TensorParts { layout, words }, end))
}
