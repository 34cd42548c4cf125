// Role records and run records: refusals 6 and 8.
#![tactic(auto)]

ghost use Rattle.std.specs.Prelude.{◌≡◌, List, ℕ, ◌+◌, ◌<◌, ◌≤◌, length, get_or};
ghost use Rattle.semantics.specs.Basic.{every};
ghost use Rattle.semantics.specs.Table.{Row};
ghost use Rattle.semantics.specs.Value.{without_variables};
ghost use Rattle.semantics.specs.Roles.{role_length, role_records, roles_present, knowledge_fits, knowledge_in, event_fits, events_in, good_role, bad_role, absent_role_from};
ghost use Rattle.semantics.specs.Runs.{run_length, run_records, atom_at, is_agent, good_run, bad_run};
ghost use Rattle.rows.specs.Rows.{place_as, rows_of};
ghost use Rattle.lists.specs.Lists.{Valued};
ghost use Rattle.records.specs.Kinds.{byte_of, event_kind_as};
ghost use Rattle.records.specs.Records.{part_at, record_at, event_at, agents_in, RoleAt, TellsGood};

pub mod roles;

use crate::roles::RoleRecords;
use frame::Part;
use lists::ClearRows;
use rows::{Kind, Table};
use table::TableLimits;

// The limits of a scenario, beside those of its table.
#[derive(Drop)]
pub struct Limits {}

impl Limits {
    pub const MOST_RUNS: usize = 4;

    pub const MOST_EVENTS: usize = 8;
}

// The kinds of events, by the byte that says each.
#[derive(Clone, Copy, PartialEq, Eq)]
pub enum EventKind {
    Send = 0,
    Read = 1,
    Claim = 2,
}

impl EventKind {
    // The kind that a byte says, if it says one.
    // stays: as for the kinds of rows, no `TryFrom`
    pub fn of(byte: u8) -> Option<EventKind>
        ensures { result ≡ event_kind_as byte }
    {
        match byte {
            0 => Some(EventKind::Send),
            1 => Some(EventKind::Read),
            2 => Some(EventKind::Claim),
            _ => None,
        }
    }
}

// The kind of the event at a place where there is one.
pub fn kind_at(s: &[u8], at: usize) -> EventKind
    requires { (at < length s.now) × (get_or s.now at 0 ≤ 2) }
    ensures { byte_of result ≡ get_or s.now at 0 }
{
    EventKind::of(s[at]).unwrap()
}

// The length of the role record at the front, by its own counts.
pub fn role_length(s: &[u8]) -> usize
    requires { 1 ≤ length s.now }
    ensures { (result ≡ role_length s.now) × ((2 ≤ result) × (result ≤ 1277)) }
{
    let knowledge = usize::from(s[0]);
    let events = s.get(1 + knowledge).map_or(0, |&count| usize::from(count));
    2 + knowledge + 4 * events
}

// How many roles are present: records that begin in the block, of the first four.
pub fn roles_present(b: &[u8]) -> usize
    ensures { (at : ℕ) → result ≡ roles_present (role_records (part_at at b.now)) }
{
    RoleRecords::of(b).take(TableLimits::MOST_ROLES).count()
}

// Where role record i begins in a block.
pub fn role_at(b: &[u8], i: usize) -> usize
    requires { (base : ℕ) × (i < length (role_records (part_at base b.now))) }
    ensures upper_bound { result < length b.now }
    ensures role_at { RoleAt b.now i result }
{
    RoleRecords::of(b).nth(i).unwrap().0
}

// Whether the knowledge rows of a role record are rising, present and have no variable beneath.
fn knowledge_fits(s: &[u8], clear: &ClearRows) -> bool
    requires { role_length s.now ≤ length s.now }
    ensures { (rows : List Row) → clear.now.count ≡ length rows → Valued rows without_variables clear.now.clear → result ≡ knowledge_fits rows (knowledge_in s.now) }
{
    let end = 1 + usize::from(s[0]);
    let list = Part {
        start: 0,
        bytes: &s[1..end],
    };
    lists::unfit_row(list, clear).is_none()
}

// Whether the four bytes of an event at a place are of a kind, with its peer and its row present.
fn event_fits(s: &[u8], at: usize, n: usize, roles: usize) -> bool
    requires { at + 3 < length s.now }
    ensures { (rows : List Row) (place : ℕ) → n ≡ length rows → result ≡ event_fits rows roles (event_at s.now at place) }
{
    let peer = usize::from(s[at + 2]);
    let row = usize::from(s[at + 3]);
    row < n
        && match EventKind::of(s[at]) {
            Some(EventKind::Send | EventKind::Read) => peer < roles,
            Some(EventKind::Claim) => peer == 0,
            None => false,
        }
}

// Whether all events of a role record fit.
fn events_fit(s: &[u8], n: usize, roles: usize) -> bool
    requires { role_length s.now ≤ length s.now }
    ensures { (rows : List Row) (start : ℕ) → n ≡ length rows → result ≡ every (event_fits rows roles) (events_in (part_at start s.now)) }
{
    let first = 2 + usize::from(s[0]);
    let count = usize::from(s[first - 1]);
    (0..count).all(|j| event_fits(s, first + 4 * j, n, roles))
}

// Whether role record i, which begins at the front, is within the rules.
fn good_role(s: &[u8], clear: &ClearRows, roles: usize, i: usize) -> bool
    requires { 1 ≤ length s.now }
    ensures { TellsGood clear.now.count clear.now.clear roles i s.now result }
{
    if s.len() < role_length(s) {
        return false;
    }
    if TableLimits::MOST_ROLES <= i {
        return false;
    }
    if Limits::MOST_EVENTS < usize::from(s[1 + usize::from(s[0])]) {
        return false;
    }
    if !knowledge_fits(s, clear) {
        return false;
    }
    events_fit(s, clear.count, roles)
}

// Refusal 6 of records: the place of the first role record against the rules.
pub fn bad_role(block: Part, t: &Table) -> Option<usize>
    ensures { result ≡ place_as (bad_role (rows_of t.now.bytes.now) (role_records (part_at block.entry.start block.entry.bytes.now))) }
{
    let b = block.bytes;
    let clear = lists::clear_rows(t, Kind::Variable, Kind::Variable);
    let roles = roles_present(b);
    RoleRecords::of(b)
        .enumerate()
        .find(|&(i, (_, s))| !good_role(s, &clear, roles, i))
        .map(|(_, (at, _))| block.start + at)
}

// Refusal 6 of rows: the place of the first row that names an absent role, in a table that begins at a place.
pub fn absent_role(t: &Table, roles: usize, base: usize) -> Option<usize>
    requires { base ≤ 65536 }
    ensures { result ≡ place_as (absent_role_from roles base (rows_of t.now.bytes.now)) }
{
    (0..t.rows)
        .find(|&r| t.kind_of(r) == Kind::Role && roles <= t.left_of(r))
        .map(|r| base + 3 * r)
}

// Whether the agent bytes of a run record are agents' rows.
fn agents_fit(s: &[u8], t: &Table, roles: usize) -> bool
    requires { (1 + roles ≤ length s.now) × (roles ≤ 4) }
    ensures { result ≡ every (λ r. is_agent (atom_at (rows_of t.now.bytes.now) r)) (agents_in roles s.now) }
{
    s[1..1 + roles]
        .iter()
        .all(|&agent| t.is_agent(usize::from(agent)))
}

// Whether run record i, which begins at the front, is within the rules.
fn good_run(s: &[u8], t: &Table, roles: usize, i: usize) -> bool
    requires { (1 ≤ length s.now) × (roles ≤ 4) }
    ensures { (start : ℕ) → result ≡ good_run (rows_of t.now.bytes.now) roles i (record_at (run_length roles) start s.now) }
{
    if s.len() < 1 + roles {
        return false;
    }
    if Limits::MOST_RUNS <= i {
        return false;
    }
    if roles <= usize::from(s[0]) {
        return false;
    }
    agents_fit(s, t, roles)
}

// Refusal 8: the place of the first run record against the rules.
pub fn bad_run(block: Part, t: &Table, roles: usize) -> Option<usize>
    requires { roles ≤ 4 }
    ensures { result ≡ place_as (bad_run (rows_of t.now.bytes.now) roles (run_records roles (part_at block.entry.start block.entry.bytes.now))) }
{
    let b = block.bytes;
    let size = 1 + roles;
    (0..b.len().div_ceil(size))
        .find(|&i| !good_run(&b[i * size..], t, roles, i))
        .map(|i| block.start + i * size)
}
