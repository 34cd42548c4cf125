// What a scenario starts with: the names of a run before any variable is set, and the marks of what is known.
#![tactic(auto)]

ghost use Rattle.std.specs.Prelude.{[], ◌<◌, ◌≤◌};
ghost use Rattle.std.specs.Option.{unwrap_or};
ghost use Rattle.rows.specs.Rows.{rows_of};
ghost use Rattle.cells.specs.Cells.{absent};
ghost use Rattle.role_level.specs.RoleLevel.{ListedBelow};
ghost use Rattle.state_start.specs.Start.{AreAgents, FirstName, Entered, StartMarks};

use cells::{Cells, Marks, Names, cell};
use rows::{Kind, Table};
use std::array;

// The name of row r in run u, for the agents of that run and before any variable is set, if it has one.
fn name_of(t: &Table, r: usize, u: usize, agents: &[u8]) -> Option<u16>
    requires { (r < t.now.rows) × ((u ≤ 4) × AreAgents (rows_of t.now.bytes.now) agents.now) }
    ensures { FirstName (rows_of t.now.bytes.now) u agents.now r (unwrap_or result absent) }
{
    let kind = t.kind_of(r);
    if kind < Kind::Role {
        return Some(r as u16);
    }
    if u == 0 {
        return None;
    }
    match kind {
        Kind::Role => agents.get(t.left_of(r)).map(|&agent| u16::from(agent)),
        Kind::Local => Some(cell(r, u) as u16),
        _ => None,
    }
}

// The names with those of run u filled in.
pub fn entered(names: Names, t: &Table, u: usize, agents: &[u8]) -> Names
    requires { (u ≤ 4) × AreAgents (rows_of t.now.bytes.now) agents.now }
    ensures { Entered (rows_of t.now.bytes.now) u agents.now names result }
{
    let mut more = names;
    for r in 0..t.rows {
        more[cell(r, u)] = name_of(t, r, u, agents).unwrap_or(Cells::ABSENT);
    }
    more
}

// The marks of the intruder constants.
fn intruder_marks(t: &Table) -> Marks
    ensures { StartMarks t.now.bytes.now t.now.rows [] result }
{
    array::from_fn(|r| r < t.rows && t.kind_of(r) == Kind::Intruder)
}

// The marks of the intruder constants and of the listed rows.
pub fn start_marks(t: &Table, list: &[u8]) -> Marks
    requires { ListedBelow t.now.rows list.now }
    ensures { StartMarks t.now.bytes.now t.now.rows list.now result }
{
    cells::with_listed(intruder_marks(t), list)
}
