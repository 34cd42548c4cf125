// The new values of a step of a trace: whether they suit its event, and the names with them.
#![tactic(auto)]

ghost use Rattle.std.specs.Prelude.{◌<◌};
ghost use Rattle.semantics.specs.Scenario.{Scenario};
ghost use Rattle.semantics.specs.State as definitions;
ghost use Rattle.semantics.specs.State.{Active};
ghost use Rattle.semantics.specs.Replay.{values_in};
ghost use Rattle.state.specs.State.{NextMove};
ghost use Rattle.replay_choices.specs.Choices.{Suited, SuitedRead};

use cells::{Cells, Names};
use records::EventKind;
use rows::Table;
use runs::RunEvent;
use state::State;
use variables::Value;

// The names with the new values of a read of run k, if they are as many as its unset variables and each may be taken.
fn chosen(names: Names, t: &Table, k: usize, row: usize, values: &[u8]) -> Option<Names>
    requires { (k < t.now.runs) × (row < t.now.rows) }
    ensures { SuitedRead t.now.bytes.now t.now.runs k row names values.now result }
{
    let below = variables::beneath(t, row);
    let mut more = names;
    let mut from = 0;
    let mut pairs = values.chunks_exact(2);
    while let Some(x) = variables::next_unset(t, &names, &below, k + 1, from) {
        let pair = pairs.next()?;
        let value = Value {
            row: usize::from(pair[0]),
            run: usize::from(pair[1]),
        };
        if !variables::may_take(t, x, value) {
            return None;
        }
        values::put(&mut more, x, k + 1, value);
        from = x + 1;
    }
    pairs.next().is_none().then_some(more)
}

// The names with the new values of a step of run k, if they suit it: those of a read, and none of any other event.
pub fn valued(s: State, t: &Table, k: usize, e: RunEvent, values: &[u8]) -> Option<Names>
    requires { (k < t.now.runs) × (e.row < t.now.rows) }
    ensures { (sc : Scenario) (d : definitions.State) (a : Active) → NextMove t.now.bytes.now t.now.runs k e sc d s a → Suited sc d a (values_in values.now) result }
{
    if e.kind == EventKind::Read {
        return chosen(s.names, t, k, e.row, values);
    }
    (values.len() < 2).then_some(s.names)
}
