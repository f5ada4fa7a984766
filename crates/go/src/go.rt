ghost use Rattle.std.specs.Prelude.{◌≡◌, ◌+◌, ◌≤◌, length};
ghost use Rattle.records.specs.RecordParts.{reading, ReadAs};
ghost use Rattle.go.specs.Record.{go_at, go_record};
ghost use Rattle.go.specs.GoParts.{go_in, GoHeld};

use little_endian::numbers::{Cursor, four_bytes, two_bytes};
use records::records::{Read, kind_at, need};
use refusals::refusal::Refusal;
use tiles::grid::Sizes;

// What `GO` holds.
#[derive(Clone, Copy)]
pub struct Go {
    pub alpha: u32,
    pub beta: u32,
    pub sizes: Sizes,
    pub done: u64,
    pub budget: u64,
}

// The numbers of a `GO` that is there whole.
#[tactic(auto, unfolding(crate::specs::Record::go_at))]
fn go_at(file: &[u8], at: usize) -> Go
    requires { at + 24 ≤ length file.now }
    ensures { result ≡ go_at file.now at }
{
    Go {
        alpha: four_bytes(file, at + 2),
        beta: four_bytes(file, at + 6),
        sizes: Sizes {
            rows: u32::from(two_bytes(file, at + 10)),
            cols: u32::from(two_bytes(file, at + 12)),
            depth: u32::from(two_bytes(file, at + 14)),
        },
        done: u64::from(four_bytes(file, at + 16)),
        budget: u64::from(four_bytes(file, at + 20)),
    }
}

// The record `GO`.
pub fn go_record(file: &[u8], from: Cursor) -> Read<Go>
    requires { from.at ≤ length file.now }
    ensures { ReadAs go_in GoHeld file.now (reading result) (go_record file.now from.at) }
{
    let at = from.at;
    let kind = kind_at(file, from)?;
    if !kind.is_go() {
        return Err(Refusal::Mark);
    }
    need(file, from, 24)?;
    Ok((go_at(file, at), Cursor { at: at + 24 }))
}
