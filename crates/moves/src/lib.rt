// Moves: whether one is allowed, with no work on the marks, and the marks after one that is.
#![tactic(auto)]

ghost use Rattle.std.specs.Prelude.{◌≡◌, true, ◌<◌, MatchOption};
ghost use Rattle.state.specs.State.{Due};
ghost use Rattle.moves.specs.Moves.{event_as, TellsAllowed, MarksAfter};

use cells::{Cells, Classes, Marks, cell};
use records::EventKind;
use rows::Table;
use runs::RunEvent;

// An event of a run with a number for its kind, which may be no kind's.
#[derive(Clone, Copy)]
pub struct NumberedEvent {
    pub kind: usize,
    pub own: usize,
    pub peer: usize,
    pub row: usize,
}

impl NumberedEvent {
    // The event, if its number is a kind's.
    pub fn event(self) -> Option<RunEvent>
        ensures { result ≡ event_as self }
    {
        let kind = EventKind::of(u8::try_from(self.kind).ok()?)?;
        Some(RunEvent {
            kind,
            own: self.own,
            peer: self.peer,
            row: self.row,
        })
    }
}

// Whether the next event of run k is allowed: a claim always, a send if its term has a value, a read if sender, receiver and pattern are derivable. Classes
// and marks are those with the new values of a read.
pub fn is_allowed(classes: &Classes, marks: &Marks, k: usize, e: RunEvent) -> bool
    requires { (k < 4) × ((e.own < 96) × ((e.peer < 96) × (e.row < 96))) }
    ensures { TellsAllowed k e classes.now marks.now result }
{
    let c = cell(e.row, k + 1);
    match e.kind {
        EventKind::Read => marks[e.own] && marks[e.peer] && marks[c],
        EventKind::Send => classes[c] != Cells::ABSENT,
        EventKind::Claim => true,
    }
}

// The marks after the next event of run k, if it is allowed: a send makes term, receiver and sender known, a read and a claim nothing. Classes and marks are
// those with the new values of a read.
pub fn perform(classes: &Classes, marks: Marks, t: &Table, k: usize, e: RunEvent) -> Marks
    requires { Due t.now.rows t.now.runs k e.own e.peer e.row }
    ensures { MarksAfter t.now.bytes.now t.now.rows t.now.runs k e classes.now marks result }
{
    if e.kind != EventKind::Send {
        return marks;
    }
    let term = knowledge::learn(marks, t, classes, e.row, k + 1);
    let receiver = knowledge::learn(term, t, classes, e.peer, 0);
    knowledge::learn(receiver, t, classes, e.own, 0)
}

// Whether the next event of run k is allowed, its kind given by number.
pub fn is_allowed_numbered(classes: &Classes, marks: &Marks, k: usize, e: NumberedEvent) -> bool
    requires { (k < 4) × ((e.own < 96) × ((e.peer < 96) × (e.row < 96))) }
    ensures { MatchOption (event_as e) (result ≡ true) (λ v. TellsAllowed k v classes.now marks.now result) }
{
    match e.event() {
        Some(event) => is_allowed(classes, marks, k, event),
        None => true,
    }
}

// The marks after the next event of run k, if it is allowed, its kind given by number.
pub fn perform_numbered(
    classes: &Classes,
    marks: Marks,
    t: &Table,
    k: usize,
    e: NumberedEvent,
) -> Marks
    requires { Due t.now.rows t.now.runs k e.own e.peer e.row }
    ensures { MatchOption (event_as e) (result ≡ marks) (λ v. MarksAfter t.now.bytes.now t.now.rows t.now.runs k v classes.now marks result) }
{
    match e.event() {
        Some(event) => perform(classes, marks, t, k, event),
        None => marks,
    }
}
