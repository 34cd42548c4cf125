// The state of a scenario by value: how far each run has come, the names that its atoms have, and marks that are exact.
#![tactic(auto)]

ghost use Rattle.std.specs.Prelude.{◌≡◌, ◌+◌, ◌<◌, ◌≤◌, length, get_or, set};
ghost use Rattle.semantics.specs.State as definitions;
ghost use Rattle.semantics.specs.Scenario.{Scenario};
ghost use Rattle.semantics.specs.Guarantee.{Guarantee};
ghost use Rattle.rows.specs.Rows.{rows_of};
ghost use Rattle.classes.specs.Classes.{Refilled};
ghost use Rattle.knowledge.specs.Marks.{Settled};
ghost use Rattle.runs.specs.Runs.{RunsAt};
ghost use Rattle.runs.specs.Opened.{Gives};
ghost use Rattle.state.specs.Start.{Agents};
ghost use Rattle.state.specs.State.{IsState};

use cells::{Cells, Classes, Marks, Names, Scope};
use runs::Opened;

// How far each run has come, what its atoms stand for, the classes of values, and the marks, taken apart.
#[derive(Clone, Copy)]
pub struct State {
    pub done: [usize; 4],
    pub names: Names,
    pub classes: Classes,
    pub marks: Marks,
}

// How far each run has come once run k, from 0, has made one more event.
pub fn advance(done: [usize; 4], k: usize) -> [usize; 4]
    requires { (k < 4) × (get_or done k 0 ≤ 8) }
    ensures { result ≡ set done k (get_or done k 0 + 1) }
{
    let mut more = done;
    more[k] += 1;
    more
}

// The marks once the names of a run have grown; the classes are filled anew.
pub fn with_names(classes: &mut Classes, marks: Marks, names: &Names, scope: &Scope) -> Marks
    ensures refilled { Refilled (rows_of scope.now.table.bytes.now) scope.now.table.runs scope.now.run names.now classes.old classes.new }
    ensures settled { Settled (rows_of scope.now.table.bytes.now) scope.now.table.runs classes.new marks result }
{
    classes::refill(classes, &scope.table, names, scope.run);
    knowledge::settle(marks, &scope.table, classes)
}

// The agents of run u as the file has them, and none for run 0.
fn agents_of<'a>(opened: &Opened<'a>, u: usize) -> &'a [u8]
    requires { (sc : Scenario) × RunsAt opened.now.file.now sc opened.now.runs × (u ≤ opened.now.runs.count) × (length opened.now.file.now ≤ 4096) }
    ensures { (sc : Scenario) → RunsAt opened.now.file.now sc opened.now.runs → Guarantee sc → Agents sc u result.now }
{
    if u == 0 {
        return &opened.file[0..0];
    }
    let first = opened.runs.runs[u - 1].start + 1;
    let end = first + opened.runs.roles;
    &opened.file[first..end]
}

impl State {
    // how many events a run has made before any move
    pub const NONE_DONE: usize = 0;

    // The state after a move, from its parts.
    pub fn after(done: [usize; 4], names: Names, classes: Classes, marks: Marks) -> State
        ensures { result ≡ record { done = done; names = names; classes = classes; marks = marks } }
    {
        State {
            done,
            names,
            classes,
            marks,
        }
    }

    // The state before any move: what is known is the file's list and all intruder constants.
    pub fn initial(opened: &Opened, list: &[u8]) -> State
        requires { (sc : Scenario) × Gives opened.now sc × (list.now ≡ sc.knowledge) }
        ensures { (sc : Scenario) → Gives opened.now sc → list.now ≡ sc.knowledge → IsState sc (definitions.initial sc) result }
    {
        let t = &opened.table;
        let mut names = [Cells::ABSENT; Cells::COUNT];
        let mut classes = [Cells::ABSENT; Cells::COUNT];
        for u in 0..t.runs + 1 {
            names = state_start::entered(names, t, u, agents_of(opened, u));
            classes::refill(&mut classes, t, &names, u);
        }
        let marks = knowledge::settle(state_start::start_marks(t, list), t, &classes);
        State {
            done: [State::NONE_DONE; 4],
            names,
            classes,
            marks,
        }
    }
}
