// The test of a partial choice of values: whether a row can still be derivable once more variables of its run are set.
#![tactic(auto)]

ghost use Rattle.std.specs.Prelude.{◌≡◌, true, false, ◌&&◌, ℕ, ◌<◌, ◌≤◌, get_or};
ghost use Rattle.rows.specs.Rows.{rows_of};
ghost use Rattle.read_fits.specs.Fits.{CanTake};
ghost use Rattle.read_possible.specs.Possible.{Possible};
ghost use Rattle.read_possible.specs.Tests.{TestedRows, TriesMarks};

use cells::{Cells, Classes, Marks, Scope, cell};
use rows::Kind;

// Whether row r can still get the value of row y in run w, if that cell is marked and stands for its own value.
fn fits_cell(classes: &Classes, marks: &Marks, scope: &Scope, r: usize, y: usize, w: usize) -> bool
    requires { (r < scope.now.table.rows) × ((y < scope.now.table.rows) × (w ≤ scope.now.table.runs)) }
    ensures { CanTake scope.now.table.bytes.now scope.now.table.rows scope.now.table.runs classes.now scope.now.run marks.now r y w → result ≡ true }
{
    let c = cell(y, w);
    let marked = marks[c];
    let class = classes[c];
    if !marked || usize::from(class) != c {
        return false;
    }
    read_fits::needs_of(classes, scope, r, class).is_some()
}

// Whether row r can still get the value of row y in some run.
fn fits_row(classes: &Classes, marks: &Marks, scope: &Scope, r: usize, y: usize) -> bool
    requires { (r < scope.now.table.rows) × (y < scope.now.table.rows) }
    ensures { (w : ℕ) → w ≤ scope.now.table.runs → CanTake scope.now.table.bytes.now scope.now.table.rows scope.now.table.runs classes.now scope.now.run marks.now r y w → result ≡ true }
{
    (0..=scope.table.runs).any(|w| fits_cell(classes, marks, scope, r, y, w))
}

// Whether row r can still get the value of a marked cell of its kind.
fn fits_mark(classes: &Classes, marks: &Marks, scope: &Scope, r: usize) -> bool
    requires { r < scope.now.table.rows }
    ensures { TriesMarks scope.now.table.bytes.now classes.now marks.now scope.now r result }
{
    let t = &scope.table;
    let kind = t.kind_of(r);
    (0..t.rows).any(|y| t.kind_of(y) == kind && fits_row(classes, marks, scope, r, y))
}

// Whether rows l and s have both passed the test.
fn both(can: &[bool; 96], l: usize, s: usize) -> bool
    requires { (l < 96) × (s < 96) }
    ensures { result ≡ (get_or can.now l false && get_or can.now s false) }
{
    can[l] && can[s]
}

// The test of row r, by the tests of other rows: a value stays, a variable can be anything, and any other row is built of its parts or has the value of a marked cell.
fn test_row(can: &[bool; 96], classes: &Classes, marks: &Marks, scope: &Scope, r: usize) -> bool
    requires { TestedRows scope.now.table.bytes.now scope.now.table.runs classes.now marks.now scope.now.run can.now × (r < scope.now.table.rows) }
    ensures { Possible (rows_of scope.now.table.bytes.now) scope.now.table.runs classes.now marks.now scope.now.run r result }
{
    if knowledge::class_at(classes, r, scope.run) < Cells::ABSENT {
        return marks[cell(r, scope.run)];
    }
    let t = &scope.table;
    let kind = t.kind_of(r);
    if !kind.is_made() {
        return true;
    }
    if kind == Kind::Pair {
        return both(can, t.left_of(r), t.second_of(r));
    }
    if kind == Kind::Encrypted && both(can, t.left_of(r), t.second_of(r)) {
        return true;
    }
    fits_mark(classes, marks, scope, r)
}

// Whether row x can still be derivable once more variables of the run are set: true wherever it can.
pub fn possible(classes: &Classes, marks: &Marks, scope: &Scope, x: usize) -> bool
    requires { x < scope.now.table.rows }
    ensures { Possible (rows_of scope.now.table.bytes.now) scope.now.table.runs classes.now marks.now scope.now.run x result }
{
    let below = variables::beneath(&scope.table, x);
    let mut can = [true; 96];
    for r in 0..=x {
        if below[r] {
            can[r] = test_row(&can, classes, marks, scope, r);
        }
    }
    can[x]
}
