// The test of a partial choice of a read's values: whether a completion of it may be allowed.
#![tactic(auto)]

ghost use Rattle.std.specs.Prelude.{IfSome};
ghost use Rattle.state.specs.State.{Due};
ghost use Rattle.moves.specs.Moves.{event_as};
ghost use Rattle.read_partial.specs.Partial.{Tested};

use cells::{Classes, Marks, Scope};
use moves::NumberedEvent;
use records::EventKind;
use rows::Table;
use runs::RunEvent;

// Whether the next event of run k, a read, may be allowed once its other variables are set too. Classes and marks are those with the values chosen so far.
pub fn may_be_read(classes: &Classes, marks: &Marks, t: &Table, k: usize, e: RunEvent) -> bool
    requires { Due t.now.rows t.now.runs k e.own e.peer e.row }
    ensures { Tested t.now.bytes.now t.now.runs k e classes.now marks.now result }
{
    let own = marks[e.own];
    let peer = marks[e.peer];
    if !own || !peer {
        return false;
    }
    let scope = Scope {
        table: *t,
        run: k + 1,
    };
    read_possible::possible(classes, marks, &scope, e.row)
        && read_completions::completes(classes, marks, &scope, e.row)
}

// Whether the next event of run k, a read whose kind is given by number, may be allowed once its other variables are set too. The test asks for no kind.
pub fn may_be_read_numbered(
    classes: &Classes,
    marks: &Marks,
    t: &Table,
    k: usize,
    e: NumberedEvent,
) -> bool
    requires { Due t.now.rows t.now.runs k e.own e.peer e.row }
    ensures { IfSome (event_as e) (λ v. Tested t.now.bytes.now t.now.runs k v classes.now marks.now result) }
{
    let event = e.event().unwrap_or(RunEvent {
        kind: EventKind::Read,
        own: e.own,
        peer: e.peer,
        row: e.row,
    });
    may_be_read(classes, marks, t, k, event)
}
