ghost use Rattle.std.specs.Prelude.{◌≡◌, ◌+◌, ◌-◌, ◌*◌, ◌≤◌, length, get_or};
ghost use Rattle.words.specs.Fronts.{front};
ghost use Rattle.stretch.specs.StretchLanes.{lanes_stored, LanesRoom};
ghost use Rattle.pack.specs.Packed.{packed_word};

// n zeros in each of m lanes, from place `to` of the first on.
fn clear_band(out: &mut [u32], to: usize, n: usize, width: usize, m: usize)
    requires { LanesRoom m n width to (length out.old) }
    ensures { out.new ≡ lanes_stored m n width (λ q r. 0) to out.old }
{
    for q in 0..m {
        let at = to + width * q;
        out[at..at + n].fill(0);
    }
}

// Zeros past the edge of a packed block at the front: from place `count` of each of the first `filled` lanes on, and in the lanes behind them, up to `depth`.
pub fn pad(out: &mut [u32], count: usize, filled: usize, width: usize, depth: usize)
    requires { (count ≤ width) × (filled ≤ depth) × (width * depth ≤ length out.old) }
    ensures { out.new
        ≡ front (width * depth)
        (packed_word width count filled (λ n d. get_or out.old (width * d + n) 0))
        out.old }
{
    clear_band(out, count, width - count, width, filled);
    out[width * filled..width * depth].fill(0);
}
