ghost use Rattle.std.specs.Prelude.{◌≡◌};
ghost use Rattle.limits.specs.Limits.{limits};

// The limits of the rules, one set of named values for both engines and the program.
#[derive(Clone, Copy)]
pub struct Limits {
    pub rank: usize,
    pub extent: u32,
    pub stride: u64,
    pub base: u32,
    pub slice: usize,
    pub product: u64,
    pub letters: usize,
    pub labels: usize,
    pub rows: usize,
    pub cols: usize,
    pub depth: usize,
    pub block: usize,
    pub job: usize,
    pub work: usize,
    pub file: usize,
    pub text: usize,
    pub lag: u64,
    pub used: usize,
    pub low: i32,
    pub high: i32,
    pub lags: usize,
}

impl Limits {
    pub const RANK: usize = 8;

    pub const EXTENT: u32 = 65536;

    pub const STRIDE: u64 = 16777216;

    pub const BASE: u32 = 16777216;

    pub const SLICE: usize = 16777216;

    pub const PRODUCT: u64 = 1073741824;
    // The letters of four tensors: room for all that a contraction is asked about.
    pub const LETTERS: usize = 4 * Limits::RANK;
    // The labels of A, B and D: room for those of a contraction that is accepted, whose C has D's letters.
    pub const LABELS: usize = 3 * Limits::RANK;

    pub const ROWS: usize = 64;

    pub const COLS: usize = 64;

    pub const DEPTH: usize = 128;
    // The offsets of a block of rows or columns.
    pub const BLOCK: usize = 64;
    // The words of a tensor in a job file.
    pub const JOB: usize = 4096;
    // The words of the job program's work slice.
    pub const WORK: usize = 16384;
    // The bytes that the job program reads of its file: one more than the longest that is accepted, of four tensors with 8 letters and 4,096 words each.
    pub const FILE: usize = 65901;
    // The bytes for the text that it prints.
    pub const TEXT: usize = 65536;
    // The greatest lag of two recordings that may be asked for.
    pub const LAG: u64 = 64;
    // The samples of a recording that a score uses.
    pub const USED: usize = 256;
    // The least and the greatest sample.
    pub const LOW: i32 = -2048;

    pub const HIGH: i32 = 2047;
    // The scores of all lags.
    pub const LAGS: usize = 65;

    // The constants are those that the definitions name.
    pub fn all() -> Limits
        ensures { result ≡ limits }
    {
        Limits {
            rank: Limits::RANK,
            extent: Limits::EXTENT,
            stride: Limits::STRIDE,
            base: Limits::BASE,
            slice: Limits::SLICE,
            product: Limits::PRODUCT,
            letters: Limits::LETTERS,
            labels: Limits::LABELS,
            rows: Limits::ROWS,
            cols: Limits::COLS,
            depth: Limits::DEPTH,
            block: Limits::BLOCK,
            job: Limits::JOB,
            work: Limits::WORK,
            file: Limits::FILE,
            text: Limits::TEXT,
            lag: Limits::LAG,
            used: Limits::USED,
            low: Limits::LOW,
            high: Limits::HIGH,
            lags: Limits::LAGS,
        }
    }
}
