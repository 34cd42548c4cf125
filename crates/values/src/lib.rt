// New values of a read, given to its variables one after the other: each is one store into the names.
#![tactic(auto)]

ghost use Rattle.std.specs.Prelude.{◌≡◌, ◌<◌, ◌≤◌, set};
ghost use Rattle.rows.specs.Rows.{rows_of};
ghost use Rattle.cells.specs.Cells.{cell_of};
ghost use Rattle.classes.specs.Classes.{Refilled};
ghost use Rattle.knowledge.specs.Marks.{Settled};

use cells::{Cells, Classes, Marks, Names, Scope, cell};
use variables::Value;

// Gives the variable of row x a value, in run u.
pub fn put(names: &mut Names, x: usize, u: usize, value: Value)
    requires { (x < 96) × ((u ≤ 4) × ((value.row < 96) × (value.run ≤ 4))) }
    ensures { names.new ≡ set names.old (cell_of x u) (cell_of value.row value.run) }
{
    names[cell(x, u)] = cell(value.row, value.run) as u16;
}

// Tries a value for the variable of row x. `before` and `filled` are the names and classes without it; those with it go into the two
// arrays that are lent first, and the answer is the marks with it.
// stays: eight parameters, so that names and classes are written where the walk has them; docs/DECISIONS.md has what the stack takes otherwise
pub fn tried(
    names: &mut Names,
    classes: &mut Classes,
    before: &Names,
    filled: &Classes,
    marks: Marks,
    scope: &Scope,
    x: usize,
    value: Value,
) -> Marks
    requires { (x < 96) × ((value.row < 96) × (value.run ≤ 4)) }
    ensures names_after { names.new ≡ set before.now (cell_of x scope.now.run) (cell_of value.row value.run) }
    ensures refilled { Refilled (rows_of scope.now.table.bytes.now) scope.now.table.runs scope.now.run names.new filled.now classes.new }
    ensures settled { Settled (rows_of scope.now.table.bytes.now) scope.now.table.runs classes.new marks result }
{
    *names = *before;
    put(names, x, scope.run, value);
    *classes = *filled;
    state::with_names(classes, marks, names, scope)
}
