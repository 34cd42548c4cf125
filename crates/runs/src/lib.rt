// The runs of an accepted file: where their records stand, and the events and agents that they have.
#![tactic(auto)]

ghost use Rattle.std.specs.Prelude.{◌≡◌, List, ℕ, ◌+◌, ◌<◌, ◌≤◌, length, get_or, MatchOption};
ghost use Rattle.semantics.specs.Basic.{every};
ghost use Rattle.semantics.specs.Runs.{atom_at, is_trusted};
ghost use Rattle.semantics.specs.Scenario.{Scenario};
ghost use Rattle.rows.specs.Rows.{rows_of};
ghost use Rattle.answers.specs.Answers.{scenario_in, Accepts};
ghost use Rattle.runs.specs.Runs.{RunsAt, IsRun, AgentsAt, FindsEvents, ReadsEvent, TellsTrusted, run_at};
ghost use Rattle.runs.specs.Opened.{IsOpened};

mod opened;

use answers::Layout;
use frame::BlockKind;
pub use opened::Opened;
use records::EventKind;
use rows::Table;

// Where a run stands: the offset of its record, that of its role's first event, and how many events it has.
#[derive(Clone, Copy)]
pub struct RunPlace {
    pub start: usize,
    pub first: usize,
    pub events: usize,
}

// Where the runs stand: how many, how many agents each names, and the place of each.
#[derive(Clone, Copy)]
pub struct Runs {
    pub count: usize,
    pub roles: usize,
    pub runs: [RunPlace; 4],
}

// An event of a run: its kind, the agents' rows of the run's own role and of the peer, and the term's row.
#[derive(Clone, Copy)]
pub struct RunEvent {
    pub kind: EventKind,
    pub own: usize,
    pub peer: usize,
    pub row: usize,
}

// Where the run stands whose record begins at an offset.
fn run_from(file: &[u8], start: usize) -> RunPlace
    requires { (sc : Scenario) × (k : ℕ) × IsRun file.now sc k start }
    ensures { (result.start ≡ start) × FindsEvents file.now start result.first result.events }
{
    let roles = frame::part_of(file, BlockKind::Roles);
    let at = records::role_at(roles.bytes, usize::from(file[start]));
    let first = at + 2 + usize::from(roles.bytes[at]);
    RunPlace {
        start,
        first: roles.start + first,
        events: usize::from(roles.bytes[first - 1]),
    }
}

// Where the runs of an accepted file stand.
pub fn runs_of(file: &[u8], l: Layout) -> Runs
    requires { Accepts file.now l }
    ensures { RunsAt file.now (scenario_in file.now) result }
{
    let count = l.runs.count;
    let roles = l.roles.count;
    let mut runs = [RunPlace {
        start: 0,
        first: 0,
        events: 0,
    }; 4];
    for k in 0..count {
        runs[k] = run_from(file, l.runs.start + k * (1 + roles));
    }
    Runs { count, roles, runs }
}

// The row of a role's agent in the run whose record begins at an offset.
fn agent_of(file: &[u8], start: usize, role: usize) -> usize
    requires { start + 1 + role < length file.now }
    ensures { (result ≡ get_or file.now (start + 1 + role) 0) × (result < 256) }
{
    usize::from(file[start + 1 + role])
}

// Whether all agents of the run whose record begins at an offset are trusted.
fn trusted_from(file: &[u8], t: &Table, start: usize, roles: usize) -> bool
    requires { start + roles < length file.now }
    ensures { (agents : List ℕ) → AgentsAt file.now start roles agents → result ≡ every (λ a. is_trusted (atom_at (rows_of t.now.bytes.now) a)) agents }
{
    (0..roles).all(|i| t.is_trusted(agent_of(file, start, i)))
}

impl<'a> Opened<'a> {
    // A file that Open accepts with a layout.
    pub fn of(file: &'a [u8], l: Layout) -> Opened<'a>
        requires { Accepts file.now l }
        ensures file { result.file.now ≡ file.now }
        ensures is_opened { IsOpened result }
    {
        let runs = runs_of(file, l);
        let terms = frame::part_of(file, BlockKind::Terms).bytes;
        let table = Table::new(terms, l.terms.count, runs.count);
        Opened { file, table, runs }
    }

    // Event j of run k, both from 0.
    pub fn event_of(&self, k: usize, j: usize) -> RunEvent
        requires { (k < self.now.runs.count) × (j < (run_at self.now.runs k).events) }
        ensures { ReadsEvent self.now.file.now self.now.runs k j result }
    {
        let RunPlace { start, first, .. } = self.runs.runs[k];
        let at = first + 4 * j;
        RunEvent {
            kind: records::kind_at(self.file, at),
            own: agent_of(self.file, start, usize::from(self.file[start])),
            peer: agent_of(self.file, start, usize::from(self.file[at + 2])),
            row: usize::from(self.file[at + 3]),
        }
    }

    // Event j of run k, if the run has so many.
    pub fn next_event(&self, k: usize, j: usize) -> Option<RunEvent>
        requires { k < self.now.runs.count }
        ensures { MatchOption result ((run_at self.now.runs k).events ≤ j) (λ e. (j < (run_at self.now.runs k).events) × ReadsEvent self.now.file.now self.now.runs k j e) }
    {
        if j < self.runs.runs[k].events {
            Some(self.event_of(k, j))
        } else {
            None
        }
    }

    // Whether all agents of run k, from 0, are trusted.
    pub fn all_trusted(&self, k: usize) -> bool
        requires { k < self.now.runs.count }
        ensures { TellsTrusted self.now.file.now self.now.table.bytes.now self.now.runs k result }
    {
        trusted_from(
            self.file,
            &self.table,
            self.runs.runs[k].start,
            self.runs.roles,
        )
    }
}
