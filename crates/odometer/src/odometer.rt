ghost use Rattle.std.specs.Prelude.{◌≡◌, ◌-◌, ◌≤◌, length, map, take, slice_index};
ghost use Rattle.limits.specs.Limits.{labels_limit};
ghost use Rattle.groups.specs.Held.{as_label, labels_in};
ghost use Rattle.offsets.specs.Offsets.{Words};
ghost use Rattle.odometer.specs.Odometer.{last_in, Tabled, Turned, Advanced, Rows};

use groups::groups::{Dim, Group};
use offsets::offsets::Offsets;

// A label's row in a table: its last value, and how far each tensor moves when it goes up, by its step less how far the labels before it have gone.
#[derive(Clone, Copy)]
pub struct Row {
    pub last: u64,
    pub moves: Offsets,
}

impl Row {
    // The row of no label.
    pub fn none() -> Row
        ensures { (result.last ≡ 0) × Words result.moves (λ o. 0) }
    {
        let moves = Offsets::none();
        Row { last: 0, moves }
    }
}

// The digits of the next count: the first label below its last value goes up, and those before it go back to 0. Answers the place of that label, or
// the number of rows where there is none.
fn turn(digits: &mut [u64], rows: &[Row]) -> usize
    requires { length rows.now ≤ length digits.old }
    ensures { Turned (length rows.now) (last_in rows.now)
        (λ i. slice_index digits.old i) (λ i. slice_index digits.new i) result }
{
    for i in 0..rows.len() {
        let v = digits[i];
        if v < rows[i].last {
            digits[i] = v + 1;
            return i;
        }
        digits[i] = 0;
    }
    rows.len()
}

// From the digits and address words of a count to those of the next: no product, no quotient, one sum for each tensor.
pub fn advance(at: Offsets, digits: &mut [u64], rows: &[Row]) -> Offsets
    requires { length rows.now ≤ length digits.old }
    ensures { Advanced rows.now digits.old digits.new at result }
{
    let i = turn(digits, rows);
    if i < rows.len() {
        at.plus(rows[i].moves)
    } else {
        at
    }
}

// The last value of a label. One of extent 0 has none, and its group no count.
fn last_value(extent: u32) -> u32
    ensures { result ≡ extent - 1 }
{
    extent.saturating_sub(1)
}

// The rows of labels, one behind the other.
fn set_rows(labels: &[Dim], rows: &mut [Row])
    requires { length labels.now ≤ length rows.old }
    ensures { Tabled (map as_label labels.now) (take (length labels.now) rows.new) }
{
    let mut gone = Offsets::none();
    for (i, l) in labels.iter().enumerate() {
        let last = last_value(l.extent);
        let moves = Offsets::along(*l, 1).minus(gone);
        rows[i] = Row {
            last: u64::from(last),
            moves,
        };
        gone = gone.plus(Offsets::along(*l, last));
    }
}

// The rows of the labels behind a group's first one, at the front of the table.
pub fn tabulate<'a>(g: &Group, table: &'a mut [Row]) -> &'a [Row]
    requires { (g.now.count ≤ labels_limit) × (labels_limit ≤ length table.old) }
    ensures { Rows (labels_in g.now) result.now }
{
    match g.labels() {
        [] => &table[..0],
        [_, behind @ ..] => {
            set_rows(behind, table);
            &table[..behind.len()]
        },
    }
}
