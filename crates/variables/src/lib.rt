// The variables that a read sets, in order of their rows, and the values that a variable may take, in order of row and run.
#![tactic(auto)]

ghost use Rattle.std.specs.Prelude.{◌≡◌, false, ◌&&◌, ℕ, ◌+◌, ◌*◌, ◌<◌, ◌≤◌, eqb, get_or, IsTrue, ◌↔◌, MatchOption};
ghost use Rattle.std.proofs.Math.Option.{some};
ghost use Rattle.semantics.specs.Term as terms;
ghost use Rattle.semantics.specs.Term.{Atom, variable};
ghost use Rattle.semantics.specs.Runs.{atom_at};
ghost use Rattle.rows.specs.Kinds.{number_of};
ghost use Rattle.rows.specs.Rows.{rows_of};
ghost use Rattle.cells.specs.Cells.{cell_of, absent};
ghost use Rattle.variables.specs.Variables.{Beneath, ClosedFrom, NextUnset, first_run, run_count, TellsValue, NextOf, NotNamed, Among, Unset};
ghost use Rattle.variables.specs.Types.{fresh_type};

mod found;

use cells::{Cells, Names};
pub use found::VariableRows;
use rows::{Kind, Table};
use std::array;

// The type of a variable: what its values are.
#[derive(Clone, Copy, PartialEq, Eq)]
pub enum VariableType {
    Agent,
    Fresh,
}

// A value of a variable: a row, and the run in which it is read.
#[derive(Clone, Copy, PartialEq, Eq)]
pub struct Value {
    pub row: usize,
    pub run: usize,
}

// Marks the parts of row r, if it is marked itself.
fn mark_parts(below: &mut [bool; 96], t: &Table, r: usize)
    requires { r < t.now.rows }
    ensures { (x : ℕ) → ClosedFrom (rows_of t.now.bytes.now) x (r + 1) below.old → ClosedFrom (rows_of t.now.bytes.now) x r below.new }
{
    if !below[r] || !t.kind_of(r).is_made() {
        return;
    }
    below[t.left_of(r)] = true;
    below[t.second_of(r)] = true;
}

// Which rows lie beneath row x: the row itself, and what lies beneath the rows that it refers to.
pub fn beneath(t: &Table, x: usize) -> [bool; 96]
    requires { x < t.now.rows }
    ensures { Beneath (rows_of t.now.bytes.now) x result }
{
    let mut below = [false; 96];
    below[x] = true;
    for r in (0..=x).rev() {
        mark_parts(&mut below, t, r);
    }
    below
}

// Whether row y is an unset variable of run u that is marked.
fn is_unset(t: &Table, names: &Names, below: &[bool; 96], u: usize, y: usize) -> bool
    requires { (y < t.now.rows) × (u ≤ 4) }
    ensures { IsTrue result ↔ NotNamed t.now.bytes.now names.now u below.now y }
{
    below[y] && t.kind_of(y) == Kind::Variable && names[cells::cell(y, u)] == Cells::ABSENT
}

// The first row, not below a given one, that is an unset variable of run u beneath the pattern, if there is one.
pub fn next_unset(
    t: &Table,
    names: &Names,
    below: &[bool; 96],
    u: usize,
    from: usize,
) -> Option<usize>
    requires { (u ≤ 4) × (from ≤ t.now.rows) }
    ensures { (pattern : ℕ) → Beneath (rows_of t.now.bytes.now) pattern below.now → MatchOption result (NextUnset (rows_of t.now.bytes.now) names.now u pattern from t.now.rows) (λ x. (x < t.now.rows) × NextUnset (rows_of t.now.bytes.now) names.now u pattern from x) }
{
    (from..t.rows).find(|y| is_unset(t, names, below, u, *y))
}

// The variables of a table among the rows of a set.
pub fn variable_rows(t: &Table, set: &[bool; 96]) -> VariableRows
    ensures { Among t.now.bytes.now t.now.rows set.now result }
{
    let mut found = [0; 8];
    let mut count = 0;
    for x in 0..t.rows {
        if set[x] && t.kind_of(x) == Kind::Variable {
            found[count] = x;
            count += 1;
        }
    }
    VariableRows { rows: found, count }
}

// Whether row x of a set has no value in run u, by its name or class.
fn lacks_value(set: &[bool; 96], values: &[u16; Cells::COUNT], u: usize, x: usize) -> bool
    requires { (x < 96) × (u ≤ 4) }
    ensures { result ≡ (get_or set.now x false && eqb (get_or values.now (cell_of x u) absent) absent) }
{
    set[x] && values[cells::cell(x, u)] == Cells::ABSENT
}

// The rows of a set that have no value in run u, by their names or classes.
fn without_value(set: [bool; 96], values: &[u16; Cells::COUNT], u: usize) -> [bool; 96]
    requires { u ≤ 4 }
    ensures { (x : ℕ) → x < 96 → get_or result x false ≡ (get_or set x false && eqb (get_or values.now (cell_of x u) absent) absent) }
{
    array::from_fn(|x| lacks_value(&set, values, u, x))
}

// The variables without a value in run u, by their names or classes, among the rows of a set.
pub fn unset_rows(
    t: &Table,
    values: &[u16; Cells::COUNT],
    set: [bool; 96],
    u: usize,
) -> VariableRows
    requires { u ≤ 4 }
    ensures { Unset t.now.bytes.now t.now.rows values.now u set result }
{
    variable_rows(t, &without_value(set, values, u))
}

// The first run with which a row of a kind is a value: 1 for a local constant, 0 for every other.
fn first_run(kind: Kind) -> usize
    ensures { (result ≡ first_run (number_of kind)) × (result ≤ 1) }
{
    usize::from(kind == Kind::Local)
}

// With how many runs a row of a kind is a value of a variable of a type.
#[tactic(auto, unfolding(crate::specs::Variables::run_count))]
fn run_count(kind: Kind, variable: VariableType, runs: usize) -> usize
    ensures { (result ≡ run_count runs (fresh_type variable) (number_of kind)) × (result ≤ runs + 1) }
{
    match (variable, kind) {
        (VariableType::Agent, Kind::Trusted | Kind::Untrusted) => 1,
        (VariableType::Fresh, Kind::Intruder) => 1,
        (VariableType::Fresh, Kind::Local) => runs,
        _ => 0,
    }
}

// The type of the variable of row x.
fn type_of(t: &Table, x: usize) -> VariableType
    requires { x < t.now.rows }
    ensures { fresh_type result ≡ eqb (get_or t.now.bytes.now (3 * x + 2) 0) 1 }
{
    if t.right_of(x) == 1 {
        VariableType::Fresh
    } else {
        VariableType::Agent
    }
}

// Whether the variable of row x may take a value.
pub fn may_take(t: &Table, x: usize, value: Value) -> bool
    requires { (x < t.now.rows) × (get_or t.now.bytes.now (3 * x) 0 ≡ 6) }
    ensures { (a : Atom) → atom_at (rows_of t.now.bytes.now) x ≡ some a → TellsValue (rows_of t.now.bytes.now) t.now.runs a value.row value.run result }
{
    if t.rows <= value.row {
        return false;
    }
    let kind = t.kind_of(value.row);
    let first = first_run(kind);
    first <= value.run && value.run - first < run_count(kind, type_of(t, x), t.runs)
}

// The first value that the variable of row x may take whose row is r and run at least w, or whose row is higher.
pub fn next_value(t: &Table, x: usize, r: usize, w: usize) -> Option<Value>
    requires { (x < t.now.rows) × (r ≤ t.now.rows) }
    ensures { (num : ℕ) (type : terms.VariableType) → atom_at (rows_of t.now.bytes.now) x ≡ some (variable num type) → NextOf (rows_of t.now.bytes.now) t.now.runs type r w result }
{
    let variable = type_of(t, x);
    let mut v = w;
    for y in r..t.rows {
        let kind = t.kind_of(y);
        let first = first_run(kind);
        let run = v.max(first);
        if run < first + run_count(kind, variable, t.runs) {
            return Some(Value { row: y, run });
        }
        v = 0;
    }
    None
}
