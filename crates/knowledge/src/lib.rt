// Knowledge as marks: one for each row in each run, taken apart and built up until nothing is added.
#![tactic(auto)]

ghost use Rattle.std.specs.Prelude.{◌≡◌, ◌≢◌, false, ◌<◌, ◌≤◌, get_or, MatchOption};
ghost use Rattle.std.specs.Option.{unwrap_or};
ghost use Rattle.rows.specs.Kinds.{number_of};
ghost use Rattle.rows.specs.Rows.{rows_of};
ghost use Rattle.cells.specs.Cells.{absent};
ghost use Rattle.knowledge.specs.Marks.{Settled, LearnsCell, Learnt};
ghost use Rattle.knowledge.specs.Steps.{class_at, Gathered, Spread, InverseKinds, Opening, Gained, GainedAt, RowGained, AllIdle, SomeGained, Reaches, Finished};

use cells::{Cells, Classes, Marks, cell, present};
use rows::{Kind, Table};

// The class of row r in run u, or ABSENT.
// stays: a class that is absent is not marked either, so that `is_marked` asks both at once; callers hand it on or compare it with another
pub fn class_at(classes: &Classes, r: usize, u: usize) -> u16
    requires { (r < 96) × (u ≤ 4) }
    ensures { result ≡ class_at classes.now r u }
{
    classes[cell(r, u)]
}

// Marks of classes from marks of cells: a class is marked if one of its cells is.
fn gathered(start: &Marks, t: &Table, classes: &Classes) -> Marks
    ensures { Gathered t.now.rows t.now.runs classes.now start.now result }
{
    let mut marks = [false; 480];
    for u in 0..t.runs + 1 {
        for r in 0..t.rows {
            if start[cell(r, u)] {
                let class = class_at(classes, r, u);
                if class < Cells::ABSENT {
                    marks[usize::from(class)] = true;
                }
            }
        }
    }
    marks
}

// Marks of cells from marks of classes.
fn spread(marks: &Marks, t: &Table, classes: &Classes) -> Marks
    ensures { Spread t.now.rows t.now.runs classes.now marks.now result }
{
    let mut out = [false; 480];
    for u in 0..t.runs + 1 {
        for r in 0..t.rows {
            if is_marked(marks, class_at(classes, r, u)) {
                out[cell(r, u)] = true;
            }
        }
    }
    out
}

// Whether a class is there and marked.
fn is_marked(marks: &Marks, class: u16) -> bool
    ensures { result ≡ get_or marks.now class false }
{
    class < Cells::ABSENT && marks[usize::from(class)]
}

// Marks a pair or an encryption, row x, in each run in which both its parts are marked.
fn build_row(marks: &mut Marks, t: &Table, classes: &Classes, x: usize)
    requires { x < t.now.rows }
    ensures { Reaches t.now.bytes.now t.now.rows t.now.runs classes.now marks.old marks.new }
{
    if t.is_before(x, Kind::Pair) {
        return;
    }
    let left = t.left_of(x);
    let right = t.right_of(x);
    for u in 0..t.runs + 1 {
        let class = class_at(classes, x, u);
        if class < Cells::ABSENT
            && is_marked(marks, class_at(classes, left, u))
            && is_marked(marks, class_at(classes, right, u))
        {
            marks[usize::from(class)] = true;
        }
    }
}

// The kind of the inverse of a public or a secret key; every other term is its own inverse.
pub fn inverse_of(kind: Kind) -> Option<Kind>
    ensures { MatchOption result ((number_of kind ≢ 8) × (number_of kind ≢ 9)) (λ other. InverseKinds (number_of kind) (number_of other)) }
{
    match kind {
        Kind::PublicKey => Some(Kind::SecretKey),
        Kind::SecretKey => Some(Kind::PublicKey),
        _ => None,
    }
}

// Whether the inverse of a key is marked: the other key of that agent, or the key itself.
// The key is told by its class, whose number is a cell with its kind and parts: a variable's own row does not have them.
fn opens(marks: &Marks, t: &Table, classes: &Classes, key: u16) -> bool
    ensures { Opening t.now.bytes.now t.now.rows t.now.runs classes.now marks.now key result }
{
    let (x, u) = cells::place_of(usize::from(key));
    if t.rows <= x || t.runs < u {
        return false;
    }
    let Some(other) = inverse_of(t.kind_of(x)) else {
        return is_marked(marks, key);
    };
    let agent = class_at(classes, t.left_of(x), u);
    let inverse = cells::class_of_parts(t, classes, other, agent, agent);
    inverse.is_some_and(|class| is_marked(marks, class))
}

// What a pair or an encryption gives that is not marked yet, by the classes of it and its parts.
// It gives its parts, and itself where it was passed in building before its parts were marked.
fn given(
    marks: &Marks,
    t: &Table,
    classes: &Classes,
    kind: Kind,
    whole: u16,
    left: u16,
    right: u16,
) -> Option<u16>
    requires { 11 ≤ number_of kind }
    ensures { Gained t.now.bytes.now t.now.rows t.now.runs classes.now marks.now (number_of kind) whole left right (unwrap_or result absent) }
{
    let has_left = is_marked(marks, left);
    if !is_marked(marks, whole) {
        (has_left && is_marked(marks, right)).then_some(whole)
    } else if !has_left {
        (kind == Kind::Pair || opens(marks, t, classes, right)).then_some(left)
    } else {
        (kind == Kind::Pair && !is_marked(marks, right)).then_some(right)
    }
}

// A class that row x gives in run u and that is not marked yet.
fn gain(marks: &Marks, t: &Table, classes: &Classes, x: usize, u: usize) -> Option<u16>
    requires { (x < t.now.rows) × (u ≤ t.now.runs) }
    ensures { MatchOption result (GainedAt t.now.bytes.now t.now.rows t.now.runs classes.now marks.now x u absent) (λ class. (class < absent) × GainedAt t.now.bytes.now t.now.rows t.now.runs classes.now marks.now x u class) }
{
    if t.is_before(x, Kind::Pair) {
        return None;
    }
    let kind = t.kind_of(x);
    let whole = class_at(classes, x, u);
    let left = class_at(classes, t.left_of(x), u);
    let right = class_at(classes, t.right_of(x), u);
    // what is given may have no class
    let class = given(marks, t, classes, kind, whole, left, right);
    class.and_then(present)
}

// A class that row x gives in some run and that is not marked yet.
fn row_gain(marks: &Marks, t: &Table, classes: &Classes, x: usize) -> Option<u16>
    requires { x < t.now.rows }
    ensures { MatchOption result (RowGained t.now.bytes.now t.now.rows t.now.runs classes.now marks.now x absent) (λ class. (class < absent) × RowGained t.now.bytes.now t.now.rows t.now.runs classes.now marks.now x class) }
{
    (0..t.runs + 1).find_map(|u| gain(marks, t, classes, x, u))
}

// A class that some row gives and that is not marked yet.
fn next_gain(marks: &Marks, t: &Table, classes: &Classes) -> Option<u16>
    ensures { MatchOption result (AllIdle t.now.bytes.now t.now.rows t.now.runs classes.now marks.now) (λ class. (class < absent) × SomeGained t.now.bytes.now t.now.rows t.now.runs classes.now marks.now class) }
{
    (0..t.rows).find_map(|x| row_gain(marks, t, classes, x))
}

// Marks what can be built among the rows below row r: first those below the last 16 of them, then these in order.
fn build(marks: &mut Marks, t: &Table, classes: &Classes, r: usize)
    requires { r ≤ t.now.rows }
    ensures { Reaches t.now.bytes.now t.now.rows t.now.runs classes.now marks.old marks.new }
{
    if r == 0 {
        return;
    }
    let below = r.saturating_sub(16);
    build(marks, t, classes, below);
    for x in below..r {
        build_row(marks, t, classes, x);
    }
}

// The marks of classes when nothing can be built or taken apart any more.
fn rounds(start: Marks, t: &Table, classes: &Classes) -> Marks
    ensures { Finished t.now.bytes.now t.now.rows t.now.runs classes.now start result }
{
    let mut marks = start;
    // stays: a round follows as long as one gains something, so there is no range to go over
    'rounds: loop {
        build(&mut marks, t, classes, t.rows);
        match next_gain(&marks, t, classes) {
            Some(gained) => marks[usize::from(gained)] = true,
            None => break 'rounds marks,
        }
    }
}

// Marks worked on until they are exact, from marks that are sound and cover what is known.
pub fn settle(start: Marks, t: &Table, classes: &Classes) -> Marks
    ensures { Settled (rows_of t.now.bytes.now) t.now.runs classes.now start result }
{
    let gathered_marks = gathered(&start, t, classes);
    let done = rounds(gathered_marks, t, classes);
    spread(&done, t, classes)
}

// The marks when the value of row r in run u is known too.
pub fn learn(mut marks: Marks, t: &Table, classes: &Classes, r: usize, u: usize) -> Marks
    requires { (r < t.now.rows) × (u ≤ t.now.runs) }
    ensures learnt { Learnt (rows_of t.now.bytes.now) t.now.runs classes.now r u marks result }
    ensures learns_cell { LearnsCell (rows_of t.now.bytes.now) t.now.runs classes.now r u marks result }
{
    let c = cell(r, u);
    if marks[c] {
        return marks;
    }
    marks[c] = true;
    settle(marks, t, classes)
}
