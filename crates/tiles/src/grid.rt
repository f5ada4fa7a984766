ghost use Rattle.std.specs.Prelude.{◌≡◌, ◌+◌, ◌*◌, ◌^◌, ◌<◌, ◌≤◌};
ghost use Rattle.tiles.specs.Cut.{blocks, width, cut_by, MB, NB, KB, total, tile_number};
ghost use Rattle.tiles.specs.Progress.{state_at};
ghost use Rattle.tiles.specs.Grid.{cut_in, Fits, Counted, TileOf, state_of};

// The sizes of the four groups.
#[derive(Clone, Copy)]
pub struct Counts {
    pub batch: u32,
    pub row: u32,
    pub column: u32,
    pub depth: u32,
}

// Of a tile: how many counts of the row, column and depth group it has, fewer at the edge.
#[derive(Clone, Copy)]
pub struct Sizes {
    pub rows: u32,
    pub cols: u32,
    pub depth: u32,
}

// The groups cut into tiles.
#[derive(Clone, Copy)]
pub struct Grid {
    pub counts: Counts,
    pub sizes: Sizes,
    pub row_blocks: u32,
    pub column_blocks: u32,
    pub panels: u32,
    pub total: u64,
}

// Where a tile stands: its batch count, column block, panel and row block.
#[derive(Clone, Copy)]
pub struct Tile {
    pub batch: u32,
    pub column: u32,
    pub panel: u32,
    pub row: u32,
}

// Of an output index: no panel done, some, or all.
#[derive(Clone, Copy, PartialEq, Eq)]
pub enum State {
    Old,
    Part,
    Final,
}

// How many blocks of b counts hold n counts.
fn blocks_in(n: u32, b: u32) -> u32
    requires { (0 < b) × (n + b < 2 ^ 32) }
    ensures { result ≡ blocks n b }
{
    n.div_ceil(b)
}

// How many of n counts block k of b counts holds.
pub fn width_of(n: u32, b: u32, k: u32) -> u32
    requires { k * b ≤ n }
    ensures { result ≡ width n b k }
{
    let left = n - k * b;
    left.min(b)
}

impl Grid {
    pub fn of(counts: Counts, sizes: Sizes) -> Grid
        requires { Fits (cut_by counts sizes) }
        ensures { (cut_in result ≡ cut_by counts sizes) × Counted result }
    {
        let row_blocks = blocks_in(counts.row, sizes.rows);
        let column_blocks = blocks_in(counts.column, sizes.cols);
        let cut = blocks_in(counts.depth, sizes.depth);
        let panels = cut.max(1);
        let total = (counts.batch as u64)
            * (column_blocks as u64)
            * (panels as u64)
            * (row_blocks as u64);
        Grid {
            counts,
            sizes,
            row_blocks,
            column_blocks,
            panels,
            total,
        }
    }

    // The tile of a number.
    pub fn tile(self, n: u64) -> Tile
        requires { Counted self × (n < total (cut_in self)) }
        ensures { TileOf (cut_in self) n result }
    {
        let rows = self.row_blocks as u64;
        let panels = self.panels as u64;
        let columns = self.column_blocks as u64;
        let strip = n / rows;
        let column = strip / panels;
        Tile {
            batch: (column / columns) as u32,
            column: (column % columns) as u32,
            panel: (strip % panels) as u32,
            row: (n % rows) as u32,
        }
    }

    // The number of a tile.
    fn number(self, h: u64, c: u64, p: u64, r: u64) -> u64
        requires { Counted self × (h < (cut_in self).H) × (c < NB (cut_in self)) × (p < KB (cut_in self)) × (r < MB (cut_in self)) }
        ensures { result ≡ tile_number (cut_in self) h c p r }
    {
        let rows = self.row_blocks as u64;
        let panels = self.panels as u64;
        let columns = self.column_blocks as u64;
        ((h * columns + c) * panels + p) * rows + r
    }

    // The state of an output index after t tiles, by the numbers of the first and the last tile that reach it.
    pub fn state(self, t: u64, h: u64, i: u64, j: u64) -> State
        requires { Counted self × (h < (cut_in self).H) × (i < (cut_in self).M) × (j < (cut_in self).N) }
        ensures { state_of result ≡ state_at (cut_in self) t h i j }
    {
        let sizes = self.sizes;
        let c = j / (sizes.cols as u64);
        let r = i / (sizes.rows as u64);
        let panels = self.panels as u64;
        if t <= self.number(h, c, 0, r) {
            return State::Old;
        }
        if self.number(h, c, panels - 1, r) < t {
            return State::Final;
        }
        State::Part
    }
}
