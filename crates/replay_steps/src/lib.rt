// One step of a trace: whether it is allowed, and the state after it.
#![tactic(auto)]

ghost use Rattle.semantics.specs.Scenario.{Scenario};
ghost use Rattle.semantics.specs.State as definitions;
ghost use Rattle.records.specs.Kinds.{byte_of};
ghost use Rattle.rows.specs.Rows.{rows_of};
ghost use Rattle.runs.specs.Opened.{Gives};
ghost use Rattle.state.specs.State.{IsState};
ghost use Rattle.replay_steps.specs.Steps.{StepDone, Worked};

use cells::{Cells, Classes, Marks, Names, Scope};
use records::EventKind;
use runs::Opened;
use state::State;

// A step that is allowed: how many bytes it takes, and the state after it.
#[derive(Drop)]
pub struct Stepped {
    pub length: usize,
    pub state: State,
}

// The marks for an event with its new values, and its classes: worked on for a read, which alone has new values.
fn worked(
    classes: &mut Classes,
    marks: Marks,
    names: &Names,
    scope: &Scope,
    kind: EventKind,
) -> Marks
    ensures { Worked (rows_of scope.now.table.bytes.now) scope.now.table.runs scope.now.run (byte_of kind) names.now classes.old marks classes.new result }
{
    if kind == EventKind::Read {
        return state::with_names(classes, marks, names, scope);
    }
    marks
}

// The step at the front of some bytes, if it is allowed: run, count of new values, two bytes for each.
pub fn step(opened: &Opened, s: State, trace: &[u8]) -> Option<Stepped>
    requires { (sc : Scenario) × (d : definitions.State) × Gives opened.now sc × IsState sc d s }
    ensures { (sc : Scenario) (d : definitions.State) → Gives opened.now sc → IsState sc d s → StepDone sc d trace.now result }
{
    if trace.len() < 2 {
        return None;
    }
    let u = usize::from(trace[0]);
    let end = 2 + 2 * usize::from(trace[1]);
    if trace.len() < end {
        return None;
    }
    if u == 0 {
        return None;
    }
    if opened.runs.count < u {
        return None;
    }
    let k = u - 1;
    let e = opened.next_event(k, s.done[k])?;
    let names = replay_choices::valued(s, &opened.table, k, e, &trace[2..end])?;
    let before = s.done;
    let marks = s.marks;
    let mut classes = s.classes;
    let scope = Scope {
        table: opened.table,
        run: k + 1,
    };
    let more = worked(&mut classes, marks, &names, &scope, e.kind);
    if !moves::is_allowed(&classes, &more, k, e) {
        return None;
    }
    let after = moves::perform(&classes, more, &opened.table, k, e);
    let done = state::advance(before, k);
    Some(Stepped {
        length: end,
        state: State::after(done, names, classes, after),
    })
}
