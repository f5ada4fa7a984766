ghost use Rattle.std.specs.Prelude.{◌≡◌, ◌<◌, is_some, unwrap_or};
ghost use Rattle.contraction.specs.Operands.{contraction_if, contraction_of, contraction_with_c};
ghost use Rattle.contraction.specs.TensorPlaces.{operand_number, tensor_count};

use layout::layout::Layout;

// The tensors of a contraction: A, B and C are read, D is read and written.
#[derive(Clone, Copy, PartialEq, Eq)]
pub enum Operand {
    A,
    B,
    C,
    D,
}

impl Operand {
    // Its place in arrays by tensor.
    pub fn place(self) -> usize
        ensures { (result ≡ operand_number self) × (result < tensor_count) }
    {
        self as usize
    }
}

// D's word becomes alpha × (sum over every label that D lacks of A's entry × B's entry) + beta × C's entry. C may be left out: then beta × D's old word is
// added.
#[derive(Clone, Copy)]
pub struct Contraction {
    pub a: Layout,
    pub b: Layout,
    pub c: Option<Layout>,
    pub d: Layout,
    pub alpha: u32,
    pub beta: u32,
}

// How many words each tensor's slice has. C's means nothing of a contraction without C.
#[derive(Clone, Copy)]
pub struct Lengths {
    pub a: usize,
    pub b: usize,
    pub c: usize,
    pub d: usize,
}

impl Contraction {
    // How many tensors there are.
    pub const TENSORS: usize = 4;

    // The contraction of layouts as they were handed in: nothing is asked here, a call asks its questions of it.
    pub fn of(
        a: Layout,
        b: Layout,
        c: Option<Layout>,
        d: Layout,
        alpha: u32,
        beta: u32,
    ) -> Contraction
        ensures { result ≡ contraction_if (is_some c) a b (unwrap_or c d) d alpha beta }
    {
        Contraction {
            a,
            b,
            c,
            d,
            alpha,
            beta,
        }
    }

    // Without C.
    pub fn new(a: Layout, b: Layout, d: Layout, alpha: u32, beta: u32) -> Contraction
        ensures { result ≡ contraction_of a b d alpha beta }
    {
        Contraction::of(a, b, None, d, alpha, beta)
    }

    // With C.
    pub fn with_c(a: Layout, b: Layout, c: Layout, d: Layout, alpha: u32, beta: u32) -> Contraction
        ensures { result ≡ contraction_with_c a b c d alpha beta }
    {
        Contraction::of(a, b, Some(c), d, alpha, beta)
    }
}
