ghost use Rattle.std.specs.Prelude.{◌≡◌, [], ◌≤◌, length, map, drop};
ghost use Rattle.words.specs.Words.{word_of};
ghost use Rattle.limits.specs.Limits.{labels_limit};
ghost use Rattle.labels.specs.Labels.{stride_of};
ghost use Rattle.contraction.specs.declared.contraction.Operand.TheVariants.{C, D};
ghost use Rattle.contraction.specs.TensorAxes.{shape_of};
ghost use Rattle.contraction.specs.TensorPlaces.{by_tensor};
ghost use Rattle.groups.specs.Groups.{label, size};
ghost use Rattle.groups.specs.Held.{as_label, labels_in};
ghost use Rattle.groups.specs.Foldable.{Foldable};
ghost use Rattle.groups.specs.Sets.{Split, Grouped};

use contraction::contraction::{Contraction, Operand};
use contraction::operands::Operands;
use labels::labels::stride_of;
use limits::limits::Limits;

// A label, or several that were joined, with its extent and its stride in each tensor as an address word.
#[derive(Clone, Copy)]
pub struct Dim {
    pub letter: u32,
    pub extent: u32,
    pub strides: [u64; Contraction::TENSORS],
}

// The labels of a group in order, the fastest first.
#[derive(Clone, Copy)]
pub struct Group {
    pub dims: [Dim; Limits::LABELS],
    pub count: usize,
}

// The four groups as sets of letters.
#[derive(Clone, Copy)]
pub struct Sets {
    pub batch: u64,
    pub row: u64,
    pub column: u64,
    pub depth: u64,
}

// The four groups of labels.
#[derive(Clone, Copy)]
pub struct Groups {
    pub batch: Group,
    pub row: Group,
    pub column: Group,
    pub depth: Group,
}

// Batch: in A, B and D; column: in B and D, not A; row: every other label of D; depth: every label not in D.
fn sets_of(a: u64, b: u64, d: u64) -> Sets
    ensures { Split a b d result }
{
    let batch = a & b & d;
    let column = b & d & !a;
    Sets {
        batch,
        row: d & !(batch | column),
        column,
        depth: !d,
    }
}

// The stride of a letter in C. Where C is not named, that is its stride in D, which is `d`.
fn stride_in_c(x: &Operands, c: u32, d: u64) -> u64
    requires { d ≡ word_of 64 (stride_of c (shape_of x.now D)) }
    ensures { result ≡ word_of 64 (stride_of c (shape_of x.now C)) }
{
    match x.c {
        Some(l) => stride_of(l.axes, c),
        None => d,
    }
}

// A letter's label.
pub fn dim_of(x: &Operands, c: u32) -> Dim
    ensures { as_label result ≡ label (shape_of x.now) c }
{
    let in_d = stride_of(x.d.axes, c);
    let strides = [
        stride_of(x.a.axes, c),
        stride_of(x.b.axes, c),
        stride_in_c(x, c, in_d),
        in_d,
    ];
    Dim {
        letter: c,
        extent: x.extent(c),
        strides,
    }
}

impl Dim {
    // Its stride in a tensor.
    pub fn stride(self, o: Operand) -> u64
        ensures { result ≡ by_tensor self.strides o }
    {
        self.strides[o.place()]
    }
}

impl Group {
    pub fn none() -> Group
        ensures { (labels_in result ≡ []) × (result.count ≡ 0) × (length result.dims ≡ labels_limit) }
    {
        let strides = [0u64; Contraction::TENSORS];
        let empty = Dim {
            letter: 0,
            extent: 0,
            strides,
        };
        Group {
            dims: [empty; Limits::LABELS],
            count: 0,
        }
    }

    // Its labels.
    pub fn labels(&self) -> &[Dim]
        requires { self.now.count ≤ labels_limit }
        ensures { (length result.now ≡ self.now.count) × (labels_in self.now ≡ map as_label result.now) }
    {
        &self.dims[..self.count]
    }

    // The product of the extents of the labels from a place on.
    pub fn size_from(self, start: usize) -> u32
        requires { (self.count ≤ labels_limit) × (start ≤ self.count) × Foldable (labels_in self) }
        ensures { result ≡ size (drop start (labels_in self)) }
    {
        let mut product: u32 = 1;
        for l in &self.labels()[start..] {
            product *= l.extent;
        }
        product
    }
}

// The four groups of a contraction's labels, as sets of letters.
pub fn groups_of(x: &Operands) -> Sets
    ensures { Grouped (shape_of x.now) result }
{
    sets_of(x.a.letters.set, x.b.letters.set, x.d.letters.set)
}
