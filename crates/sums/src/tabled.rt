ghost use Rattle.odometer.specs.Odometer.{Rows};
ghost use Rattle.sums.specs.Walk.{over, Walks};

use super::walk::Walk;
use odometer::odometer::Row;

// A group: how its counts are walked, and the rows of its labels behind the first, by which the address words are carried from run to run.
#[derive(Clone, Copy)]
pub struct TabledWalk<'a> {
    pub walk: Walk<'a>,
    pub rows: &'a [Row],
    pub ghost walks: { Walks (over walk) walk },
    pub ghost carried: { Rows (over walk) rows.now },
}
