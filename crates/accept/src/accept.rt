ghost use Rattle.contraction.specs.Operands.{lengths};
ghost use Rattle.accept.specs.Accept.{Acceptable, AcceptedOf, PlannedIn, AcceptOf};

use contraction::contraction::{Contraction, Lengths};
use contraction::operands::Operands;
use plan::plan::{Plan, plan_of};
use questions::questions::first_no;
use refusals::refusal::Refusal;
use tile_blocks::plan_grid::grid_of;
use tile_questions::tile_refusals::size_refusal;
use tiles::grid::{Grid, Sizes};

// What a contraction that questions 1 to 10 accept starts from: its plan and the grid of its tiles.
#[derive(Clone, Copy)]
pub struct Accept {
    pub plan: Plan,
    pub grid: Grid,
}

// Questions 1 to 10: where none refuses, the lists of the tensors' axes. The plan, which is large, is made of them once all passed: a result that
// carries it would be cleared and copied.
pub fn accepted(c: &Contraction, z: Sizes, n: Lengths) -> Result<Operands, Refusal>
    ensures { AcceptedOf c.now z (lengths c.now n) result }
{
    let lists = first_no(c, n)?;
    size_refusal(z)?;
    Ok(lists)
}

impl Accept {
    // What a contraction that questions 1 to 10 accept starts from, of the lists of its axes.
    pub fn from_lists(c: &Contraction, z: Sizes, x: &Operands) -> Accept
        requires { Acceptable c.now z x.now }
        ensures { PlannedIn c.now z result }
    {
        let plan = plan_of(c, x);
        let grid = grid_of(&plan, z);
        Accept { plan, grid }
    }

    // Questions 1 to 10, the plan and the grid.
    pub fn of(c: Contraction, z: Sizes, n: Lengths) -> Result<Accept, Refusal>
        ensures { AcceptOf c z (lengths c n) result }
    {
        let lists = accepted(&c, z, n)?;
        Ok(Accept::from_lists(&c, z, &lists))
    }
}
