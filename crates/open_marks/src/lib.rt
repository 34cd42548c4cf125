// Marks at role level: whether a name or a key's inverse is derivable, marks with more known, marks that two have in common, and marks that are kept in notes.
#![tactic(auto)]

ghost use Rattle.std.specs.Prelude.{◌≡◌, true, ◌<◌, ◌≤◌, IfSome};
ghost use Rattle.rows.specs.Kinds.{number_of};
ghost use Rattle.rows.specs.Rows.{rows_of};
ghost use Rattle.cells.specs.Cells.{cell_count};
ghost use Rattle.open_marks.specs.Marks.{RowMarked, NameKnown, InverseKnown, Learns};
ghost use Rattle.open_marks.specs.Sure.{Gains, Opens, InBoth, Shared, Added, Stand, KeptOf, KeptFor, SlotFilled, NoNotes, KeptIn};

use cells::{Cells, Marks};
use role_level::RoleLevel;
use rows::{Kind, Table};

// What a row's last reading shows of its way: it goes on in the first or the second part of a pair, with the other part known, or
// it ends at an encryption that does not open.
#[derive(Clone, Copy, PartialEq, Eq)]
pub enum Way {
    First,
    Second,
    Shut,
}

// Marks with which a row was found readable.
#[derive(Clone, Copy)]
pub struct Kept {
    pub row: usize,
    pub marks: [bool; 96],
}

// Notes: the way of each row, if its last reading showed one, which is a hint; 128 slots for what is kept; and the slot that is next.
#[derive(Drop)]
pub struct Notes {
    pub ways: [Option<Way>; 96],
    pub kept: [Option<Kept>; 128],
    pub next: usize,
}

// Whether there is a row with the given kind and left byte that is marked.
fn row_marked(marks: &Marks, t: &Table, kind: Kind, left: usize) -> bool
    ensures { RowMarked t.now.bytes.now t.now.rows marks.now (number_of kind) left result }
{
    (0..t.rows).any(|x| marks[x] && t.kind_of(x) == kind && t.left_of(x) == left)
}

// Whether the name of role i is derivable.
pub fn name_known(marks: &Marks, t: &Table, i: usize) -> bool
    ensures { NameKnown (rows_of t.now.bytes.now) marks.now i result }
{
    row_marked(marks, t, Kind::Role, i)
}

// Whether the inverse of the term of row k is derivable: the other key of that agent, or the term itself.
pub fn inverse_known(marks: &Marks, t: &Table, k: usize) -> bool
    requires { k < t.now.rows }
    ensures { InverseKnown (rows_of t.now.bytes.now) marks.now k result × Opens (rows_of t.now.bytes.now) marks.now k result }
{
    let Some(other) = knowledge::inverse_of(t.kind_of(k)) else {
        return marks[k];
    };
    row_marked(marks, t, other, t.left_of(k))
}

// The marks when the term of row x is known too.
pub fn learned(marks: Marks, level: &RoleLevel, x: usize) -> Marks
    requires { x < level.now.table.rows }
    ensures { Learns (rows_of level.now.table.bytes.now) x marks result × Gains (rows_of level.now.table.bytes.now) x marks result }
{
    knowledge::learn(marks, &level.table, &level.classes, x, 0)
}

// Whether row x is marked in both.
fn in_both(one: &Marks, other: &Marks, x: usize) -> bool
    requires { x < cell_count }
    ensures { InBoth one.now other.now x result }
{
    one[x] && other[x]
}

// The rows that are marked in both.
// stays: here and for what is kept the number of rows is enough, and a table would ask more of callers
pub fn shared(one: &Marks, other: &Marks, n: usize) -> Marks
    requires { n ≤ 96 }
    ensures { Shared n one.now other.now result }
{
    let mut both = [false; Cells::COUNT];
    // the rows alone: an array made by `array::from_fn` asks all 480, for each pair that is read
    for x in 0..n {
        both[x] = in_both(one, other, x);
    }
    both
}

// Marks with one more, if it was found.
pub fn added(mut marks: Marks, found: Option<usize>) -> Marks
    requires { IfSome found (λ x. x < 96) }
    ensures { Added found marks result }
{
    if let Some(x) = found {
        marks[x] = true;
    }
    marks
}

// Whether some row is marked in both.
fn meets(one: &Marks, other: &Marks, t: &Table) -> bool {
    (0..t.rows).any(|x| in_both(one, other, x))
}

// The row beneath the encryptions of row x; row 0, an atom, where row x is marked or is no encryption.
pub fn content_of(marks: &Marks, t: &Table, x: usize) -> usize
    requires { x < t.now.rows }
    ensures { result ≤ x }
{
    if marks[x] || t.kind_of(x) != Kind::Encrypted {
        // stays: row 0 is as soon tried as passed over; an Option would add a case to each of the two tries, or a closure that calls its own function
        return 0;
    }
    let mut y = t.left_of(x);
    // stays: the way goes down a chain of parts, so there is no range to go over
    while t.kind_of(y) == Kind::Encrypted {
        y = t.left_of(y);
    }
    y
}

// Goes down from row x the way that was not readable before, as the notes say where it goes, and marks the rows on it and what is
// known on it besides. The row at its end, unless it may be readable.
fn follow(
    more: &mut Marks,
    way: &mut Marks,
    sure: &Marks,
    t: &Table,
    ways: &[Option<Way>; 96],
    mut x: usize,
) -> Option<usize>
    requires { x < t.now.rows }
    ensures { IfSome result (λ end. end < t.now.rows) }
{
    // stays: the way goes down a chain of parts, so there is no range to go over
    while !more[x] && !sure[x] {
        way[x] = true;
        let left = t.left_of(x);
        let right = t.right_of(x);
        x = match t.kind_of(x) {
            Kind::Pair => match ways[x] {
                Some(Way::First) => {
                    more[right] = true;
                    left
                }
                Some(Way::Second) => {
                    more[left] = true;
                    right
                }
                _ => return None,
            },
            Kind::Encrypted if ways[x] != Some(Way::Shut) => left,
            _ => return Some(x),
        };
    }
    None
}

// Whether a quick try is given up: the way that the notes remember as not readable still is not, by the marks that now stand.
pub fn gives_up(
    marks: Marks,
    sure: &Marks,
    level: &RoleLevel,
    notes: &Notes,
    quick: bool,
    x: usize,
) -> bool
    requires { x < level.now.table.rows }
    ensures { result ≡ true → quick ≡ true }
{
    // stays: that only a quick try is given up is what this function promises to others, and without the flag it would promise nothing
    if !quick {
        return false;
    }
    let t = &level.table;
    let mut more = marks;
    let mut way = [false; 480];
    let Some(end) = follow(&mut more, &mut way, sure, t, &notes.ways, x) else {
        return false;
    };
    let known = knowledge::settle(more, t, &level.classes);
    if meets(&known, &way, t) {
        return false;
    }
    match t.kind_of(end) {
        Kind::Encrypted => !inverse_known(&known, t, t.right_of(end)),
        kind => kind != Kind::Variable,
    }
}

// Whether all marks that are kept stand.
fn covers(marks: &Marks, kept: &[bool; 96], n: usize) -> bool
    requires { n ≤ 96 }
    ensures { result ≡ true → Stand n marks.now kept.now }
{
    (0..n).all(|x| !kept[x] || marks[x])
}

// Whether what is kept in a slot is of row x, with marks that stand.
fn is_of(kept: &Option<Kept>, marks: &Marks, n: usize, x: usize) -> bool
    requires { n ≤ 96 }
    ensures { result ≡ true → KeptOf n marks.now x kept.now }
{
    match kept {
        Some(kept) => kept.row == x && covers(marks, &kept.marks, n),
        None => false,
    }
}

// The marks of the rows of a table with so many.
fn of_rows(marks: &Marks, n: usize) -> [bool; 96]
    requires { n ≤ 96 }
    ensures { SlotFilled n marks.now result }
{
    let mut kept = [false; 96];
    kept[..n].copy_from_slice(&marks[..n]);
    kept
}

impl Notes {
    // Notes before anything is read.
    pub fn new() -> Notes
        ensures { NoNotes result }
    {
        Notes {
            ways: [None; 96],
            kept: [None; 128],
            next: 0,
        }
    }

    // Whether row x was found readable with marks that stand.
    pub fn is_kept(&self, marks: &Marks, n: usize, x: usize) -> bool
        requires { n ≤ 96 }
        ensures { result ≡ true → KeptFor n marks.now self.now x }
    {
        (0..128).any(|slot| is_of(&self.kept[slot], marks, n, x))
    }

    // Keeps the marks with which row x is readable, in place of the oldest that are kept.
    pub fn keep(&mut self, marks: &Marks, n: usize, x: usize)
        requires { (n ≤ 96) × (x < n) }
        ensures { KeptIn n marks.now x self.old self.new }
    {
        let slot = self.next % 128;
        self.kept[slot] = Some(Kept {
            row: x,
            marks: of_rows(marks, n),
        });
        self.next = slot + 1;
    }
}
