// What every call of the tiled engine starts from: questions 1 to 10, and where they pass the plan and the grid.
#![tactic(auto)]

pub mod accept;
