ghost use Rattle.std.specs.Prelude.{◌≡◌};
ghost use Rattle.flat.specs.FlatLayout.{flat_contraction, flat_contraction_with_c};

use super::layout_words::layout_of;
use contraction::contraction::Contraction;

// The contraction of three layouts, each handed in as 28 words.
pub fn contraction_of(
    a: &[u32; 28],
    b: &[u32; 28],
    d: &[u32; 28],
    alpha: u32,
    beta: u32,
) -> Contraction
    ensures { result ≡ flat_contraction a.now b.now d.now alpha beta }
{
    Contraction::new(layout_of(a), layout_of(b), layout_of(d), alpha, beta)
}

// The contraction of four layouts, with C.
pub fn contraction_with_c(
    a: &[u32; 28],
    b: &[u32; 28],
    c: &[u32; 28],
    d: &[u32; 28],
    alpha: u32,
    beta: u32,
) -> Contraction
    ensures { result ≡ flat_contraction_with_c a.now b.now c.now d.now alpha beta }
{
    Contraction::with_c(
        layout_of(a),
        layout_of(b),
        layout_of(c),
        layout_of(d),
        alpha,
        beta,
    )
}
