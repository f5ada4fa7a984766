ghost use Rattle.contraction.specs.Operands.{tensors, shape};
ghost use Rattle.contraction.specs.TensorAxes.{Ready};
ghost use Rattle.plan.specs.Plan.{AllFoldable, Bases, Planned};

use contraction::contraction::Contraction;
use contraction::operands::Operands;
use folding::fold::folded;
use groups::groups::{Groups, groups_of};
use offsets::offsets::Offsets;

// What tiles walk: the four groups, folded, and where each tensor begins.
#[derive(Clone, Copy)]
pub struct Plan {
    pub groups: Groups,
    pub base: Offsets,
}

// Where each tensor begins. Where C is not named, it begins where D does.
pub fn base_of(c: &Contraction) -> Offsets
    ensures { Bases (tensors c.now) result }
{
    let base_of_c = c.c.unwrap_or(c.d).base;
    let words = [
        c.a.base as u64,
        c.b.base as u64,
        base_of_c as u64,
        c.d.base as u64,
    ];
    Offsets { words }
}

// The plan of a contraction that questions 1 to 9 accept, from the lists of its axes.
pub fn plan_of(c: &Contraction, x: &Operands) -> Plan
    requires { Ready c.now x.now × AllFoldable (shape (tensors c.now)) }
    ensures { Planned (tensors c.now) result }
{
    let sets = groups_of(x);
    let groups = Groups {
        batch: folded(x, sets.batch),
        row: folded(x, sets.row),
        column: folded(x, sets.column),
        depth: folded(x, sets.depth),
    };
    Plan {
        groups,
        base: base_of(c),
    }
}
