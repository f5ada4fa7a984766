ghost use Rattle.std.specs.Prelude.{◌≡◌, length};
ghost use Rattle.contraction.specs.Operands.{four};
ghost use Rattle.tiles.specs.Cut.{total};
ghost use Rattle.tile_blocks.specs.ContractionInTiles.{cut_of};
ghost use Rattle.tile_questions.specs.TileQuestions.{Accepted};
ghost use Rattle.states.specs.StateLetters.{state_letters};

use accept::accept::Accept;
use contraction::contraction::{Contraction, Lengths};
use letters::letters::{clear, letter_batches};
use tiles::grid::Sizes;

// The letters of D's words after t tiles; the total of tiles.
pub fn letters_after(
    k: Contraction,
    z: Sizes,
    a: &[u32],
    b: &[u32],
    c: &[u32],
    d: &[u32],
    t: u64,
    out: &mut [u8],
) -> u64
    requires { Accepted k z (four a.now b.now c.now d.now) × (length out.old ≡ length d.now) }
    ensures { (result ≡ total (cut_of k z))
        × (out.new ≡ state_letters k z (four a.now b.now c.now d.now) t) }
{
    let n = Lengths {
        a: a.len(),
        b: b.len(),
        c: c.len(),
        d: d.len(),
    };
    let x = Accept::of(k, z, n).unwrap();
    let g = x.grid;
    clear(out);
    letter_batches(&x.plan, g, t, out);
    g.total
}
