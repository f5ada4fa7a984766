ghost use Rattle.std.specs.Prelude.{◌≡◌, ◌+◌, ◌≤◌, true, false, MatchResult, length};
ghost use Rattle.records.specs.Records.{kind_at, layout_begins, layout_record};
ghost use Rattle.refusals.specs.declared.refusal.Refusal.{Refusal};
ghost use Rattle.little_endian.specs.Bytes.{has};
ghost use Rattle.records.specs.RecordParts.{reading, layout_in, LayoutHeld, ReadAs};

use limits::limits::Limits;
use little_endian::numbers::{Cursor, two_bytes};
use marks::marks::Kind;
use refusals::refusal::Refusal;

// Where a layout's letters begin, and its rank.
#[derive(Clone, Copy)]
pub struct LayoutPart {
    pub at: usize,
    pub rank: usize,
}

// Where a tensor's words begin, how many there are, and the bytes of each.
#[derive(Clone, Copy)]
pub struct WordsPart {
    pub at: usize,
    pub count: usize,
    pub width: usize,
}

// A tensor's two records.
#[derive(Clone, Copy)]
pub struct TensorParts {
    pub layout: LayoutPart,
    pub words: WordsPart,
}

// What was read and where the next record begins, or the question that refuses the file.
pub type Read<T> = Result<(T, Cursor), Refusal>;

// Refuses a file that ends before n more bytes.
pub fn need(file: &[u8], from: Cursor, n: usize) -> Result<(), Refusal>
    requires { from.at ≤ length file.now }
    ensures { MatchResult result (λ _. has file.now from.at n ≡ true)
        (λ refusal. (refusal ≡ Refusal.CutShort) × (has file.now from.at n ≡ false)) }
{
    if from.has(file, n) {
        Ok(())
    } else {
        Err(Refusal::CutShort)
    }
}

// The kind of the record that begins here.
pub fn kind_at(file: &[u8], from: Cursor) -> Result<Kind, Refusal>
    requires { from.at ≤ length file.now }
    ensures { MatchResult result (λ kind. (has file.now from.at 2 ≡ true) × (kind ≡ kind_at file.now from.at))
        (λ refusal. (refusal ≡ Refusal.CutShort) × (has file.now from.at 2 ≡ false)) }
{
    need(file, from, 2)?;
    Ok(Kind::of(two_bytes(file, from.at)))
}

// Does the layout of the tensor with this letter begin here?
pub fn layout_begins(file: &[u8], from: Cursor, letter: u8) -> bool
    requires { from.at ≤ length file.now }
    ensures { result ≡ layout_begins file.now letter from.at }
{
    from.has(file, 2) && Kind::of(two_bytes(file, from.at)).is_layout(letter)
}

// The layout of the tensor with this letter.
pub fn layout_record(file: &[u8], from: Cursor, letter: u8) -> Read<LayoutPart>
    requires { from.at ≤ length file.now }
    ensures { ReadAs layout_in LayoutHeld file.now (reading result) (layout_record file.now letter from.at) }
{
    let at = from.at;
    let kind = kind_at(file, from)?;
    if !kind.is_layout(letter) {
        return Err(Refusal::Mark);
    }
    need(file, from, 3)?;
    let rank = usize::from(file[at + 2]);
    if rank > Limits::RANK {
        return Err(Refusal::Rank);
    }
    let size = 7 + 9 * rank;
    need(file, from, size)?;
    Ok((LayoutPart { at: at + 3, rank }, Cursor { at: at + size }))
}
