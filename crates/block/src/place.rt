ghost use Rattle.std.specs.Prelude.{◌≡◌};
ghost use Rattle.block.specs.Places.{as_step, place_after};

use super::block::Step;
use limits::limits::Limits;

// From the address of a place of a block to that of the next, place i: an even block is walked by its step, a scattered one by its offsets. A match:
// each way is one sum.
pub fn next_place(at: u64, from: u64, offsets: &[u64; Limits::BLOCK], step: Step, i: usize) -> u64
    ensures { result ≡ place_after at from offsets.now (as_step step) i }
{
    match step {
        Some(s) => at.wrapping_add(s),
        None => {
            if i < Limits::BLOCK {
                from.wrapping_add(offsets[i])
            } else {
                from
            }
        }
    }
}
