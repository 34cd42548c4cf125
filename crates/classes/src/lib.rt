// Comparison of values: the class of every cell, equal for equal values.
#![tactic(auto)]

ghost use Rattle.std.specs.Prelude.{◌≡◌, ◌≢◌, ◌+◌, ◌<◌, ◌≤◌, MatchOption};
ghost use Rattle.std.specs.Option.{unwrap_or};
ghost use Rattle.rows.specs.Rows.{rows_of};
ghost use Rattle.cells.specs.Cells.{absent};
ghost use Rattle.classes.specs.Classes.{Refilled};
ghost use Rattle.classes.specs.Filled.{ClassOf, Filled};

use cells::{Cells, Classes, Names, cell, class_of_parts};
use rows::{Kind, Table};

// A name or a class, unless it is ABSENT.
fn unless_absent(class: u16) -> Option<u16>
    ensures { MatchOption result (class ≡ absent) (λ found. (found ≢ absent) × (found ≡ class)) }
{
    (class != Cells::ABSENT).then_some(class)
}

// The class of row x in run u, from the classes of its parts, if they have one: a name, a class that is there already, or the cell itself.
fn class_of(t: &Table, names: &Names, classes: &Classes, u: usize, x: usize) -> Option<u16>
    requires { (u ≤ t.now.runs) × (x < t.now.rows) }
    ensures { ClassOf t.now.bytes.now t.now.rows t.now.runs names.now classes.now u x (unwrap_or result absent) }
{
    let c = cell(x, u);
    if t.is_before(x, Kind::PublicKey) {
        return unless_absent(names[c]);
    }
    let a = unless_absent(classes[cell(t.left_of(x), u)])?;
    let b = unless_absent(classes[cell(t.second_of(x), u)])?;
    let kind = t.kind_of(x);
    Some(class_of_parts(t, classes, kind, a, b).unwrap_or(c as u16))
}

// Gives row x its class in run u, if it has none yet.
fn fill_row(classes: &mut Classes, t: &Table, names: &Names, u: usize, x: usize)
    requires { (u ≤ t.now.runs) × (x < t.now.rows) }
    ensures { Filled (rows_of t.now.bytes.now) t.now.runs u names.now x (x + 1) classes.old classes.new }
{
    let c = cell(x, u);
    if classes[c] == Cells::ABSENT {
        if let Some(class) = class_of(t, names, classes, u, x) {
            classes[c] = class;
        }
    }
}

// Gives the rows below row r their classes in run u: first those below, then the row itself.
fn fill(classes: &mut Classes, t: &Table, names: &Names, u: usize, r: usize)
    requires { (u ≤ t.now.runs) × (r ≤ t.now.rows) }
    ensures { Filled (rows_of t.now.bytes.now) t.now.runs u names.now 0 r classes.old classes.new }
{
    if r == 0 {
        return;
    }
    fill(classes, t, names, u, r - 1);
    fill_row(classes, t, names, u, r - 1);
}

// The classes after the names of run u have grown.
pub fn refill(classes: &mut Classes, t: &Table, names: &Names, u: usize)
    requires { u ≤ t.now.runs }
    ensures { Refilled (rows_of t.now.bytes.now) t.now.runs u names.now classes.old classes.new }
{
    fill(classes, t, names, u, t.rows);
}
