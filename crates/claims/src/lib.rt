// Which claim a state breaks: of the runs whose agents are all trusted, the first claim passed whose value is derivable.
#![tactic(auto)]

ghost use Rattle.std.specs.Prelude.{◌≡◌, ◌<◌};
ghost use Rattle.semantics.specs.Scenario.{Scenario};
ghost use Rattle.semantics.specs.State as definitions;
ghost use Rattle.runs.specs.Opened.{Gives};
ghost use Rattle.state.specs.State.{IsState};
ghost use Rattle.claims.specs.AtRun.{AnswersEvent, AnswersRun, AnswersState};

use answers::{Claim, ClaimKind};
use cells::{Cells, Marks, cell};
use records::EventKind;
use runs::Opened;
use state::State;

// Whether event j of run k, both from 0, is a claim whose value is derivable. Past the last event there is none.
fn claims_derivable(opened: &Opened, marks: &Marks, k: usize, j: usize) -> bool
    requires { k < opened.now.runs.count }
    ensures { AnswersEvent opened.now.file.now opened.now.runs marks.now k j result }
{
    let Some(e) = opened.next_event(k, j) else {
        return false;
    };
    e.kind == EventKind::Claim && marks[cell(e.row, k + 1)]
}

// The first broken claim of run k, from 0, among the events that it has made.
fn broken_in_run(opened: &Opened, marks: &Marks, done: usize, k: usize) -> Option<Claim>
    requires { k < opened.now.runs.count }
    ensures { AnswersRun opened.now.file.now opened.now.table.bytes.now opened.now.runs marks.now done k result }
{
    if !opened.all_trusted(k) {
        return None;
    }
    let event = (0..done).find(|&j| claims_derivable(opened, marks, k, j))?;
    Some(Claim {
        run: k + 1,
        event,
        kind: ClaimKind::Secrecy,
    })
}

// The first claim that a state breaks: of the lowest run, and there the first of its events.
pub fn broken(opened: &Opened, done: [usize; 4], marks: Marks) -> Option<Claim>
    requires { (sc : Scenario) × (d : definitions.State) × (s : State) × Gives opened.now sc × IsState sc d s × (done ≡ s.done) × (marks ≡ s.marks) }
    ensures { AnswersState opened.now done marks result }
{
    (0..opened.runs.count).find_map(|k| broken_in_run(opened, &marks, done[k], k))
}
