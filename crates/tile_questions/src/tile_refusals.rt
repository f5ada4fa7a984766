ghost use Rattle.std.specs.Prelude.{◌≡◌, ◌++◌};
ghost use Rattle.refusals.specs.Numbers.{status};
ghost use Rattle.tensor_answers.specs.Asking.{refusal};
ghost use Rattle.tiles.specs.Grid.{cut_in, Counted};
ghost use Rattle.tile_questions.specs.TileQuestions.{within, sizes_fit, size_question, room_question, done_question, index_question};

use limits::limits::Limits;
use refusals::refusal::{Refusal, ask};
use tiles::grid::{Grid, Sizes};

// Is a tile's size 1 to the limit?
fn within(n: u32, limit: usize) -> bool
    ensures { result ≡ within n limit }
{
    (1..=limit).contains(&(n as usize))
}

// Question 10.
#[tactic(auto, unfolding(crate::specs::TileQuestions::sizes_fit))]
fn sizes_fit(z: Sizes) -> bool
    ensures { result ≡ sizes_fit z }
{
    within(z.rows, Limits::ROWS) && within(z.cols, Limits::COLS) && within(z.depth, Limits::DEPTH)
}

// Question 10.
#[tactic(auto, unfolding(crate::specs::TileQuestions::size_question))]
pub fn size_refusal(z: Sizes) -> Result<(), Refusal>
    ensures { status result ≡ refusal (size_question z) }
{
    ask(sizes_fit(z), Refusal::TileSizes)
}

// Questions 11 and 12.
#[tactic(auto, unfolding(crate::specs::TileQuestions::room_question, crate::specs::TileQuestions::done_question))]
pub fn tile_refusal(g: Grid, room: usize, done: u64) -> Result<(), Refusal>
    requires { Counted g }
    ensures { status result ≡ refusal (room_question g.sizes room ++ done_question (cut_in g) done) }
{
    let sizes = g.sizes;
    let rows = sizes.rows as usize;
    let cols = sizes.cols as usize;
    let depth = sizes.depth as usize;
    let enough = rows * depth + depth * cols <= room;
    let counted = done <= g.total;
    ask(enough, Refusal::WorkRoom)?;
    ask(counted, Refusal::TilesDone)
}

// Questions 12 and 13.
#[tactic(auto, unfolding(crate::specs::TileQuestions::done_question, crate::specs::TileQuestions::index_question))]
pub fn state_refusal(g: Grid, done: u64, h: u64, i: u64, j: u64) -> Result<(), Refusal>
    requires { Counted g }
    ensures { status result ≡ refusal (done_question (cut_in g) done ++ index_question (cut_in g) h i j) }
{
    let counts = g.counts;
    let inside = h < counts.batch as u64 && i < counts.row as u64 && j < counts.column as u64;
    ask(done <= g.total, Refusal::TilesDone)?;
    ask(inside, Refusal::Index)
}
