ghost use Rattle.std.specs.Prelude.{◌≡◌, ◌<◌, length};
ghost use Rattle.words.specs.Loops.{each};
ghost use Rattle.words.specs.Lists.{tabulate};
ghost use Rattle.tiles.specs.Grid.{cut_in, state_of};
ghost use Rattle.tile_blocks.specs.Planned.{GridOf};
ghost use Rattle.letters.specs.PrintedLetters.{letter_of, outside};
ghost use Rattle.letters.specs.Placed.{Placed, lettered, column_letters};

use contraction::contraction::Operand;
use counts::counts::offset_in;
use plan::plan::Plan;
use tile_blocks::tile_places::at_batch;
use tiles::grid::{Grid, State};

// The letter that is printed for a state: a match, since the numbers of the letters say nothing.
fn letter_of(s: State) -> u8
    ensures { result ≡ letter_of (state_of s) }
{
    match s {
        State::Old => b'o',
        State::Part => b'p',
        State::Final => b'f',
    }
}

// The output indices of a batch and a column count: each one's letter at its place in D.
fn letter_rows(p: &Plan, g: Grid, t: u64, h: u32, j: u32, out: &mut [u8])
    requires { GridOf p.now g × Placed p.now (cut_in g) (length out.old) × (h < (cut_in g).H) × (j < (cut_in g).N) }
    ensures { out.new ≡ each (cut_in g).M (λ i. lettered p.now (cut_in g) t h i j) out.old }
{
    let o = Operand::D;
    let row = &p.groups.row;
    let at_column = offset_in(&p.groups.column, o, j);
    let from = at_batch(p.base, &p.groups.batch, o, h).wrapping_add(at_column);
    for i in 0..g.counts.row {
        let at = from.wrapping_add(offset_in(row, o, i)) as usize;
        out[at] = letter_of(g.state(t, h as u64, i as u64, j as u64));
    }
}

// The output indices of a batch count: each one's letter at its place in D.
fn letter_columns(p: &Plan, g: Grid, t: u64, h: u32, out: &mut [u8])
    requires { GridOf p.now g × Placed p.now (cut_in g) (length out.old) × (h < (cut_in g).H) }
    ensures { out.new ≡ column_letters p.now (cut_in g) t h out.old }
{
    for j in 0..g.counts.column {
        letter_rows(p, g, t, h, j, out);
    }
}

// All output indices: each one's letter at its place in D.
pub fn letter_batches(p: &Plan, g: Grid, t: u64, out: &mut [u8])
    requires { GridOf p.now g × Placed p.now (cut_in g) (length out.old) }
    ensures { out.new ≡ each (cut_in g).H (column_letters p.now (cut_in g) t) out.old }
{
    // Without a tile there is no output index, however many counts the groups have.
    if g.total == 0 {
        return;
    }
    for h in 0..g.counts.batch {
        letter_columns(p, g, t, h, out);
    }
}

// `-` for every word: as yet all are outside the layout.
pub fn clear(out: &mut [u8])
    ensures { out.new ≡ tabulate (length out.old) (λ k. outside) }
{
    out.fill(b'-');
}
