ghost use Rattle.std.specs.Prelude.{◌≡◌, ◌+◌, ◌≤◌, length, is_some};
ghost use Rattle.tiles.specs.Cut.{total};
ghost use Rattle.tiles.specs.Grid.{cut_in};
ghost use Rattle.tiles.specs.Setting.{walk, tiles_from};
ghost use Rattle.tile_blocks.specs.Planned.{GridOf, Clear, read_in};
ghost use Rattle.tile_packs.specs.TilePacks.{packs};
ghost use Rattle.phases.specs.Phases.{words_of_c};
ghost use Rattle.one_tile.specs.TiledCalls.{call_setting};
ghost use Rattle.tiling.specs.Work.{packed_last};

use one_tile::tile::{TiledCall, run_tile};
use tile_packs::packs::pad_blocks;

// The tiles from number `done` on, `count` of them; the new count of tiles done. The zeros past the edges of the packed blocks are seen only after the call, so
// that they are written after its last tile.
pub fn run_tiles(k: TiledCall, d: &mut [u32], work: &mut [u32], done: u64, count: u64) -> u64
    requires { GridOf k.plan.now k.grid.now
        × (done + count ≤ total (cut_in k.grid.now))
        × Clear k.plan.now (cut_in k.grid.now) (is_some k.c)
        (length k.a.now) (length k.b.now) (length (words_of_c k.c)) (length d.old)
        × (packs (cut_in k.grid.now) ≤ length work.old) }
    ensures { (result ≡ done + length (tiles_from done count))
        × (d.new ≡ walk (call_setting k.entry) (tiles_from done count) d.old)
        × (work.new
        ≡ packed_last (cut_in k.entry.grid.now) (read_in k.entry.plan.now k.entry.a.now k.entry.b.now)
        (tiles_from done count) work.old) }
{
    let end = done + count;
    let mut held = false;
    for t in done..end {
        let last = t + 1 == end;
        held = run_tile(k, d, work, t, held, last);
    }
    if count > 0 {
        pad_blocks(*k.grid, k.grid.tile(end - 1), work);
    }
    end
}
