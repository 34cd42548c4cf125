// Cells, each a row in a run, and the look-up of a class by the classes of its parts.
#![tactic(auto)]

ghost use Rattle.std.specs.Prelude.{◌≡◌, ℕ, ◌+◌, ◌*◌, ◌/◌, ◌%◌, ◌<◌, ◌≤◌, length, get_or, MatchOption};
ghost use Rattle.rows.specs.Kinds.{number_of};
ghost use Rattle.cells.specs.Cells.{cell_of, cell_count, absent, same_parts, RowsLow, WithListed, Tells, Matches, Found, FoundInRow};

use rows::{Kind, Table};

// The cells: 96 rows by runs 0 to 4.
#[derive(Drop)]
pub struct Cells {}

impl Cells {
    pub const COUNT: usize = 480;
    // as a name or a class: no value
    // stays: names are words of the memory's keys too, where none is a word like the others; and an Option<u16> takes twice the room
    pub const ABSENT: u16 = 480;
}

// The name of each cell, or ABSENT.
pub type Names = [u16; Cells::COUNT];

// The class of each cell, equal for equal values, or ABSENT.
pub type Classes = [u16; Cells::COUNT];

// A name or a class, if it is there.
pub fn present(class: u16) -> Option<u16>
    ensures { MatchOption result (absent ≤ class) (λ found. (found < absent) × (found ≡ class)) }
{
    (class < Cells::ABSENT).then_some(class)
}

// Which cells are marked.
pub type Marks = [bool; Cells::COUNT];

// A run that is looked at, in a table.
#[derive(Clone, Copy)]
pub struct Scope<'a> {
    pub table: Table<'a>,
    pub run: usize,
    pub ghost within: { run ≤ table.runs },
}

// The cell of a row in a run.
// stays: one number for both, since a class is the number of a cell
pub fn cell(r: usize, u: usize) -> usize
    requires { (r < 96) × (u ≤ 4) }
    ensures { (result ≡ cell_of r u) × (result < cell_count) }
{
    u * 96 + r
}

// The row and the run of a cell; of a class, those of the cell that gives it its number.
pub fn place_of(c: usize) -> (usize, usize)
    ensures { (result.0 ≡ c % 96) × (result.1 ≡ c / 96) }
{
    (c % 96, c / 96)
}

// The marks with those of the listed rows, in run 0.
pub fn with_listed(mut marks: Marks, list: &[u8]) -> Marks
    requires { RowsLow list.now }
    ensures { WithListed list.now marks result }
{
    for &r in list {
        marks[usize::from(r)] = true;
    }
    marks
}

// Whether rows of one kind have equal values, by the classes of their parts.
fn same_parts(a: u16, b: u16, x: u16, y: u16) -> bool
    ensures { result ≡ same_parts a b x y }
{
    (a, b) == (x, y)
}

// Whether row x has a class in run w and its parts have the given classes there.
fn matches_at(t: &Table, classes: &Classes, x: usize, a: u16, b: u16, w: usize) -> bool
    requires { (x < t.now.rows) × ((8 ≤ get_or t.now.bytes.now (3 * x) 0) × (w ≤ t.now.runs)) }
    ensures { Tells (Matches t.now.bytes.now classes.now a b x w) result }
{
    if Cells::ABSENT <= classes[cell(x, w)] {
        return false;
    }
    let first = classes[cell(t.left_of(x), w)];
    let second = classes[cell(t.second_of(x), w)];
    same_parts(a, b, first, second)
}

// A run in which row x has a class and its parts have the given classes.
fn matching_run(t: &Table, classes: &Classes, x: usize, a: u16, b: u16) -> Option<usize>
    requires { (x < t.now.rows) × (8 ≤ get_or t.now.bytes.now (3 * x) 0) }
    ensures { MatchOption result ((w : ℕ) → w ≤ t.now.runs → Matches t.now.bytes.now classes.now a b x w → ⊥) (λ w. (w ≤ t.now.runs) × Matches t.now.bytes.now classes.now a b x w) }
{
    (0..t.runs + 1).find(|&w| matches_at(t, classes, x, a, b, w))
}

// The class of row x, if it has the given kind, in a run in which its parts have the given classes.
fn found_in_row(t: &Table, classes: &Classes, x: usize, kind: Kind, a: u16, b: u16) -> Option<u16>
    requires { (x < t.now.rows) × (8 ≤ number_of kind) }
    ensures { MatchOption result (FoundInRow t.now.bytes.now t.now.runs classes.now (number_of kind) a b x absent) (λ class. (class < absent) × FoundInRow t.now.bytes.now t.now.runs classes.now (number_of kind) a b x class) }
{
    if !t.has_kind(x, kind) {
        return None;
    }
    let w = matching_run(t, classes, x, a, b)?;
    Some(classes[cell(x, w)])
}

// The class of the cells of a kind that is made of other rows, whose parts have the given classes.
pub fn class_of_parts(t: &Table, classes: &Classes, kind: Kind, a: u16, b: u16) -> Option<u16>
    requires { 8 ≤ number_of kind }
    ensures { MatchOption result (Found t.now.bytes.now t.now.rows t.now.runs classes.now (number_of kind) a b absent) (λ class. (class < absent) × Found t.now.bytes.now t.now.rows t.now.runs classes.now (number_of kind) a b class) }
{
    (0..t.rows).find_map(|x| found_in_row(t, classes, x, kind, a, b))
}

// The class of the cells of the kind that a number from 8 on says, whose parts have the given classes, or ABSENT.
pub fn found(t: &Table, classes: &Classes, kind: usize, a: u16, b: u16) -> u16
    requires { 8 ≤ kind }
    ensures { Found t.now.bytes.now t.now.rows t.now.runs classes.now kind a b result }
{
    let Ok(byte) = u8::try_from(kind) else {
        return Cells::ABSENT;
    };
    match Kind::of(byte) {
        Some(kind) => class_of_parts(t, classes, kind, a, b).unwrap_or(Cells::ABSENT),
        None => Cells::ABSENT,
    }
}
