// The classes of the values that variables may take, and sets of classes: what a test of partial choices narrows.
#![tactic(auto)]

ghost use Rattle.std.specs.Prelude.{◌≡◌, true, List, ℕ, ◌<◌, get_or, count_by, IfSome};
ghost use Rattle.cells.specs.Cells.{cell_count};
ghost use Rattle.knowledge.specs.Steps.{kind_at};
ghost use Rattle.variables.specs.Variables.{In, AreVariables};
ghost use Rattle.read_domains.specs.Domains.{Counts, InRow, Listed, ListedAt, Narrows, NarrowsTo, Joins, Fit, AtSlot};

use cells::{Cells, Classes, Marks};
use rows::Table;
use std::array;
use variables::{Value, VariableRows};

// Which values count: all of them, or those that are marked.
#[derive(Clone, Copy, PartialEq, Eq)]
pub enum Counted {
    All,
    Marked,
}

// A set of classes.
pub type ClassSet = [bool; Cells::COUNT];

// A set of classes for each of 8 variables.
pub type Domains = [ClassSet; 8];

// Adds the class of cell c to a set, if the cell counts.
fn add_value(set: &mut ClassSet, classes: &Classes, marks: &Marks, counted: Counted, c: usize)
    requires { c < cell_count }
    ensures { (t : List ℕ) (n runs q : ℕ) → ListedAt t n runs classes.now (Counts counted marks.now) q c set.old set.new }
{
    if counted == Counted::Marked && !marks[c] {
        return;
    }
    let class = classes[c];
    if class < Cells::ABSENT {
        set[usize::from(class)] = true;
    }
}

// The classes of the values that the variable of row q may take, of those that count.
fn values_of(classes: &Classes, marks: &Marks, counted: Counted, t: &Table, q: usize) -> ClassSet
    requires { (q < t.now.rows) × (kind_at t.now.bytes.now q ≡ 6) }
    ensures { Listed t.now.bytes.now t.now.rows t.now.runs classes.now (Counts counted marks.now) q (In result) }
{
    let mut set = [false; Cells::COUNT];
    for c in 0..Cells::COUNT {
        let (row, run) = cells::place_of(c);
        if variables::may_take(t, q, Value { row, run }) {
            add_value(&mut set, classes, marks, counted, c);
        }
    }
    set
}

// Narrows the domain of variable i to a set.
pub fn narrow(dom: &mut Domains, i: usize, set: &ClassSet)
    requires { i < 8 }
    ensures { Narrows dom.old i set.now dom.new }
{
    let own = dom[i];
    dom[i] = array::from_fn(|c| own[c] && set[c]);
}

// The domains, that of variable i narrowed to one of its classes.
pub fn narrow_to(dom: Domains, i: usize, class: usize) -> Domains
    requires { (i < 8) × (class < cell_count) }
    ensures { NarrowsTo dom i class result }
{
    let mut one = [false; Cells::COUNT];
    one[class] = true;
    let mut less = dom;
    less[i] = one;
    less
}

// For each variable the classes of the values that it may take, of those that count.
pub fn of_variables(
    classes: &Classes,
    marks: &Marks,
    counted: Counted,
    t: &Table,
    vars: VariableRows,
) -> Domains
    requires { AreVariables t.now.bytes.now t.now.rows vars }
    ensures { (i : ℕ) → i < vars.count → Listed t.now.bytes.now t.now.rows t.now.runs classes.now (Counts counted marks.now) (get_or vars.rows i 0) (InRow result i) }
{
    // stays: as `array::from_fn` it was tried, and its closure needs a contract of its own, longer than the loop
    let mut dom = [[true; Cells::COUNT]; 8];
    for i in 0..vars.count {
        dom[i] = values_of(classes, marks, counted, t, vars.rows[i]);
    }
    dom
}

// The set with the classes that are in both of two others.
pub fn join(set: ClassSet, left: &ClassSet, right: &ClassSet) -> ClassSet
    ensures { Joins set left.now right.now result }
{
    array::from_fn(|c| set[c] || left[c] && right[c])
}

// Whether what each variable needs is in its domain.
pub fn fit(dom: &Domains, vars: VariableRows, need: &[u16; 96]) -> bool
    ensures { Fit vars dom.now need.now → result ≡ true }
{
    (0..vars.count).all(|j| {
        let class = need[vars.rows[j]];
        Cells::ABSENT <= class || dom[j][usize::from(class)]
    })
}

// The place of row q among the variables, if it is one of them.
pub fn slot_of(vars: VariableRows, q: usize) -> Option<usize>
    ensures { IfSome result (AtSlot vars q) }
{
    vars.rows[..vars.count].iter().position(|row| *row == q)
}

// Whether two sets have a class in common.
pub fn meet(set: &ClassSet, other: &ClassSet) -> bool
    ensures { (c : ℕ) → c < cell_count → In set.now c → In other.now c → result ≡ true }
{
    (0..Cells::COUNT).any(|c| set[c] && other[c])
}

// How many classes a set has.
pub fn size(set: &ClassSet) -> usize
    ensures { result ≡ count_by (λ has. has) set.now }
{
    set.iter().filter(|has| **has).count()
}
