// Role level: the classes of rows and the marks of what is known, in run 0.
#![tactic(auto)]

ghost use Rattle.std.specs.Prelude.{◌≡◌, ◌<◌};
ghost use Rattle.rows.specs.Rows.{rows_of};
ghost use Rattle.role_level.specs.RoleLevel.{listed_terms, RoleClasses, RoleExact, OwnNames, ListedMarks, ListedBelow};
ghost use Rattle.role_level.specs.laws.Right.{role-classes-prop};

use cells::{Cells, Classes, Marks, Names};
use rows::Table;

// The names at role level: each row names itself.
fn own_names(t: &Table) -> Names
    ensures { OwnNames t.now.rows result }
{
    let mut names = [Cells::ABSENT; Cells::COUNT];
    // the others keep what they have: an array made by `array::from_fn` asks all 480
    for r in 0..t.rows {
        names[r] = r as u16;
    }
    names
}

// The marks of the listed rows.
fn listed_marks(t: &Table, list: &[u8]) -> Marks
    requires { ListedBelow t.now.rows list.now }
    ensures { ListedMarks t.now.rows list.now result }
{
    cells::with_listed([false; Cells::COUNT], list)
}

// A table at role level, with the class of each of its rows.
#[derive(Clone, Copy)]
pub struct RoleLevel<'a> {
    pub table: Table<'a>,
    pub classes: Classes,
    pub ghost level: { table.runs ≡ 0 },
    pub ghost right: { RoleClasses (rows_of table.bytes.now) classes } by { role-classes-prop (rows_of table.bytes.now) classes },
}

impl<'a> RoleLevel<'a> {
    // Role level of a table.
    pub fn of(t: &Table<'a>) -> RoleLevel<'a>
        ensures { (result.table.bytes.now ≡ t.now.bytes.now) × (result.table.rows ≡ t.now.rows) }
    {
        let table = t.at_role_level();
        let names = own_names(t);
        let mut classes = [Cells::ABSENT; Cells::COUNT];
        classes::refill(&mut classes, &table, &names, 0);
        RoleLevel { table, classes }
    }

    // The marks of all that is derivable from listed rows.
    pub fn marks_of(&self, list: &[u8]) -> Marks
        requires { ListedBelow self.now.table.rows list.now }
        ensures { RoleExact (rows_of self.now.table.bytes.now) (listed_terms (rows_of self.now.table.bytes.now) list.now) result }
    {
        knowledge::settle(listed_marks(&self.table, list), &self.table, &self.classes)
    }
}
