// Search: the plain data of the walk through the list of allowed traces, and the new values and steps that it writes.
#![tactic(auto)]

ghost use Rattle.std.specs.Prelude.{◌≡◌, List, [], ◌∷◌, ◌++◌, ◌+◌, ◌*◌, ◌<◌, ◌≤◌, length, take};
ghost use Rattle.semantics.specs.State as definitions;
ghost use Rattle.search_breaks.specs.Walk.{over, ValuesAre, StepFits, step_before};

use answers::{End, Walked};
use runs::{Opened, RunEvent};
use search_runs::Listing;
use variables::Value;

// What a walk goes by: which list it goes through, the file, and the rows of its table's variables.
#[derive(Clone, Copy)]
pub struct Plan<'a> {
    pub list: Listing,
    pub opened: Opened<'a>,
    pub variables: [usize; 8],
}

// How far a trace has come: how many events each run has made.
// stays: a struct of one field, since the definitions of the walk take it and an array of four numbers could be another
#[derive(Clone, Copy)]
pub struct Course {
    pub done: [usize; 4],
}

// How far a walk goes: what is left of the budget, where its own trace ends in the buffer, and how many moves are looked at.
#[derive(Clone, Copy)]
pub struct Reach {
    pub left: usize,
    pub at: usize,
    pub depth: usize,
}

// New values as a trace has them, two bytes each, and how many they are.
#[derive(Clone, Copy)]
pub struct Values {
    pub bytes: [u8; 16],
    pub count: usize,
}

// The next event of a run, from 0, with the new values chosen so far.
#[derive(Clone, Copy)]
pub struct Turn {
    pub run: usize,
    pub event: RunEvent,
    pub values: Values,
}

// A read whose values are chosen: the rows beneath its pattern; its variables of rows from one on have no value yet.
#[derive(Clone, Copy)]
pub struct Choice {
    pub turn: Turn,
    pub under: [bool; 96],
    pub from: usize,
}

// Writes a step at a place of the trace: run, count of new values, two bytes for each.
pub fn write_step(trace: &mut [u8], at: usize, run: usize, values: Values)
    requires { (at + 2 + 2 * values.count ≤ length trace.old) × ((values.count ≤ 8) × (run < 256)) }
    ensures { trace.new ≡ over trace.old at (run ∷ values.count ∷ take (2 * values.count) values.bytes) }
{
    let end = 2 * values.count;
    trace[at] = run as u8;
    trace[at + 1] = values.count as u8;
    trace[at + 2..at + 2 + end].copy_from_slice(&values.bytes[..end]);
}

// Writes the step of a move at a place of the trace, if a break was found after it.
pub fn write_before(trace: &mut [u8], at: usize, turn: Turn, found: Walked)
    requires { StepFits (length trace.old) at turn found }
    ensures { trace.new ≡ step_before trace.old at turn found }
{
    let Err(End::Broken(_)) = found else {
        return;
    };
    write_step(trace, at, turn.run + 1, turn.values);
}

// No new values.
pub fn no_values() -> Values
    ensures { ValuesAre [] result }
{
    Values {
        bytes: [0; 16],
        count: 0,
    }
}

// The values with one more.
pub fn with_value(values: Values, value: Value) -> Values
    requires { (values.count < 8) × ((value.row < 256) × (value.run < 256)) }
    ensures { (vs : List definitions.Value) → ValuesAre vs values → ValuesAre (vs ++ (record { row = value.row; run = value.run } ∷ [])) result }
{
    let mut bytes = values.bytes;
    let end = 2 * values.count;
    bytes[end] = value.row as u8;
    bytes[end + 1] = value.run as u8;
    Values {
        bytes,
        count: values.count + 1,
    }
}
