ghost use Rattle.std.specs.Prelude.{◌≡◌, ◌+◌, ◌*◌, ◌^◌, ◌<◌, ◌≤◌, pos, nat_abs, ◌*ℤ◌, length};
ghost use Rattle.words.specs.Words.{signed};
ghost use Rattle.limits.specs.Limits.{labels_limit};
ghost use Rattle.labels.specs.Labels.{labels};
ghost use Rattle.labels.specs.LetterSets.{has};
ghost use Rattle.contraction.specs.Operands.{together};
ghost use Rattle.contraction.specs.TensorAxes.{shape_of};
ghost use Rattle.groups.specs.Groups.{labels_where};
ghost use Rattle.groups.specs.Held.{as_label, labels_in};
ghost use Rattle.groups.specs.Foldable.{Small, Foldable};
ghost use Rattle.folding.specs.Fold.{eq_ℤ, joins, join, add_to, fold};

use contraction::contraction::Contraction;
use contraction::operands::Operands;
use groups::groups::{Dim, Group, dim_of};
use labels::letter_sets::{has_letter, wide};

// Is the stride that of the label before times that one's extent? Strides are address words.
fn follows(extent: u32, before: u64, stride: u64) -> bool
    requires { nat_abs (signed 64 before) < 2 ^ 30 }
    ensures { result ≡ eq_ℤ (signed 64 stride) (pos extent *ℤ signed 64 before) }
{
    let times = u64::from(extent);
    let up = times * words::up(before);
    let down = times * words::down(before);
    (words::up(stride) == up) & (words::down(stride) == down)
}

// Does l continue p in every tensor?
fn continues(p: Dim, l: Dim) -> bool
    requires { Small (as_label p) }
    ensures { result ≡ joins (as_label p) (as_label l) }
{
    let mut all = true;
    for o in 0..Contraction::TENSORS {
        all &= follows(p.extent, p.strides[o], l.strides[o]);
    }
    all
}

// The two as one label.
fn joined(p: Dim, l: Dim) -> Dim
    requires { p.extent * l.extent < 2 ^ 32 }
    ensures { as_label result ≡ join (as_label p) (as_label l) }
{
    Dim {
        extent: p.extent * l.extent,
        ..p
    }
}

// One label more: joined to the last one where it continues that, else behind it.
fn add(out: &mut Group, l: Dim)
    requires { (out.old.count < labels_limit)
        × Foldable (labels_in out.old)
        × Foldable (add_to (labels_in out.old) (as_label l)) }
    ensures { (labels_in out.new ≡ add_to (labels_in out.old) (as_label l)) × (out.new.count ≤ out.old.count + 1) }
{
    let n = out.count;
    if n > 0 && continues(out.dims[n - 1], l) {
        out.dims[n - 1] = joined(out.dims[n - 1], l);
    } else {
        out.dims[n] = l;
        out.count = n + 1;
    }
}

// Puts into an empty group the labels of the letters that the set has, in order of first appearance in D's, A's, B's and C's letters, with labels of extent 1
// dropped and labels that step together joined. A label is made where the set has its letter: a list of all labels would be copied for each set.
pub fn fold_into(out: &mut Group, x: &Operands, set: u64)
    requires { (out.old.count ≡ 0)
        × (length (labels (together (shape_of x.now))) ≤ labels_limit)
        × Foldable (labels_where (shape_of x.now) (has set)) }
    ensures { (labels_in out.new ≡ fold (labels_where (shape_of x.now) (has set))) × (out.new.count ≤ labels_limit) }
{
    let letters = x.letters.as_slice();
    for c in letters {
        let c = wide(*c);
        if has_letter(set, c) {
            let l = dim_of(x, c);
            if l.extent != 1 {
                add(out, l);
            }
        }
    }
}

// The same as a group of its own.
pub fn folded(x: &Operands, set: u64) -> Group
    requires { (length (labels (together (shape_of x.now))) ≤ labels_limit)
        × Foldable (labels_where (shape_of x.now) (has set)) }
    ensures { (labels_in result ≡ fold (labels_where (shape_of x.now) (has set))) × (result.count ≤ labels_limit) }
{
    let mut out = Group::none();
    fold_into(&mut out, x, set);
    out
}
