ghost use Rattle.std.specs.Prelude.{◌≡◌, ◌*◌, ◌<◌, ◌≤◌};
ghost use Rattle.limits.specs.Limits.{labels_limit, block_limit, depth_limit};
ghost use Rattle.groups.specs.Groups.{size};
ghost use Rattle.groups.specs.Held.{labels_in};
ghost use Rattle.offsets.specs.Offsets.{words_in};
ghost use Rattle.scatter.specs.ScatterVectors.{Blocked};
ghost use Rattle.tiles.specs.Cut.{width};
ghost use Rattle.tile_blocks.specs.TilePlaces.{moved_from, Part, Starts};

use block::block::Block;
use contraction::contraction::Operand;
use counts::counts::offset_in;
use groups::groups::Group;
use limits::limits::Limits;
use offsets::offsets::Offsets;
use scatter::blocks::{block_of, scatter_vector};
use tiles::grid::width_of;

// A tensor's address at a count of the batch group.
pub fn at_batch(base: Offsets, g: &Group, o: Operand, h: u32) -> u64
    requires { (g.now.count ≤ labels_limit) × (h < size (labels_in g.now)) }
    ensures { result ≡ moved_from (words_in base o) o (labels_in g.now) h }
{
    base.of(o).wrapping_add(offset_in(g, o, h))
}

// In one tensor, block k of a group's n counts in blocks of b.
pub fn cut_block(g: &Group, o: Operand, n: u32, b: u32, k: u32) -> Block
    requires { Part block_limit g.now n b k }
    ensures { Blocked o (labels_in g.now) (k * b) (width n b k) result }
{
    block_of(g, o, k * b, width_of(n, b, k) as usize)
}

// In one tensor, where each depth count of panel k begins, `from` being where the tensor stands; how many there are.
pub fn panel_starts(
    g: &Group,
    o: Operand,
    from: u64,
    n: u32,
    b: u32,
    k: u32,
    starts: &mut [u64; Limits::DEPTH],
) -> usize
    requires { Part depth_limit g.now n b k }
    ensures { (result ≡ width n b k) × Starts o from (labels_in g.now) (k * b) result starts.new }
{
    let filled = width_of(n, b, k) as usize;
    scatter_vector(g, o, from, k * b, filled, starts);
    filled
}
