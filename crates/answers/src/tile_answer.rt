ghost use Rattle.std.specs.Prelude.{◌≡◌, ℕ};
ghost use Rattle.answers.specs.TileAnswer.{tile_answer, done_in};
ghost use Rattle.answers.specs.FlatTiles.{said_complete};

use refusals::refusal::Refusal;

// What a tile call that ran answers: the new count of tiles done and whether that is the total. Both mean something in each answer.
#[derive(Clone, Copy)]
pub struct Ran {
    pub done: u64,
    pub complete: bool,
}

// The tiles done after the call; as many as were given where it was refused.
pub fn done_of(outcome: Result<Ran, Refusal>, given: u64) -> u64
    ensures { result ≡ done_in (tile_answer given outcome) }
{
    match outcome {
        Ok(ran) => ran.done,
        Err(_) => given,
    }
}

// 1 where all tiles are done, 0 where not, or where the call was refused.
pub fn complete_of(outcome: Result<Ran, Refusal>) -> u32
    ensures { (given : ℕ) → result ≡ said_complete (tile_answer given outcome) }
{
    match outcome {
        Ok(ran) => u32::from(ran.complete),
        Err(_) => 0,
    }
}
