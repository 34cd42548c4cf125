// Well-formed events: WF over the marks at role level; refusal 7.
#![tactic(auto)]

ghost use Rattle.std.specs.Prelude.{◌≡◌, ◌<◌, ◌≤◌};
ghost use Rattle.std.proofs.Math.Option.{none};
ghost use Rattle.semantics.specs.Roles.{role_records, roles_from, bad_role};
ghost use Rattle.semantics.specs.WellFormed.{ill_formed};
ghost use Rattle.records.specs.Kinds.{byte_of};
ghost use Rattle.rows.specs.Rows.{rows_of, place_as};
ghost use Rattle.open_wellformed.specs.WellFormed.{WellFormedEvent, EventLearns, GoodRecord, IllRole};
ghost use Rattle.records.specs.Records.{part_at};

use cells::Marks;
use frame::Part;
use open_marks::Notes;
use records::EventKind;
use records::roles::RoleRecords;
use role_level::RoleLevel;
use rows::Table;

// Whether an event of role `own` is well formed.
fn is_well_formed(
    marks: Marks,
    level: &RoleLevel,
    own: usize,
    kind: EventKind,
    peer: usize,
    x: usize,
) -> bool
    requires { x < level.now.table.rows }
    ensures { WellFormedEvent (rows_of level.now.table.bytes.now) marks own (byte_of kind) peer x result }
{
    if !open_marks::name_known(&marks, &level.table, own) {
        return false;
    }
    if kind != EventKind::Claim && !open_marks::name_known(&marks, &level.table, peer) {
        return false;
    }
    if kind == EventKind::Read {
        let mut notes = Notes::new();
        let sure = [false; 480];
        return open_readable::is_readable(marks, sure, level, &mut notes, false, x);
    }
    marks[x]
}

// The marks after an event of a kind with the term of row x: a read makes the term known.
fn event_learned(marks: Marks, level: &RoleLevel, event: EventKind, x: usize) -> Marks
    requires { x < level.now.table.rows }
    ensures { EventLearns (rows_of level.now.table.bytes.now) (byte_of event) x marks result }
{
    if event == EventKind::Read {
        return open_marks::learned(marks, level, x);
    }
    marks
}

// The place of the first event of role `own` that is not well formed: its offset in the role's record, which begins at the front.
fn ill_formed_role(s: &[u8], level: &RoleLevel, own: usize) -> Option<usize>
    requires { GoodRecord (rows_of level.now.table.bytes.now) s.now }
    ensures { IllRole (rows_of level.now.table.bytes.now) own s.now result }
{
    let count = usize::from(s[0]);
    let first = 2 + count;
    let end = 1 + count;
    let mut marks = level.marks_of(&s[1..end]);
    let events = usize::from(s[end]);
    for j in 0..events {
        let at = first + 4 * j;
        let event = records::kind_at(s, at);
        let peer = usize::from(s[at + 2]);
        let x = usize::from(s[at + 3]);
        if !is_well_formed(marks, level, own, event, peer, x) {
            return Some(at);
        }
        // stays: a call's result cannot be laid in a local that is lent, as `marks` is above
        let more = event_learned(marks, level, event, x);
        marks = more;
    }
    None
}

// Refusal 7: the place of the first event of the role block, in role order, that is not well formed.
pub fn ill_formed(block: Part, t: &Table) -> Option<usize>
    requires { bad_role (rows_of t.now.bytes.now) (role_records (part_at block.start block.bytes.now)) ≡ none }
    ensures { result ≡ place_as (ill_formed (rows_of t.now.bytes.now) 0 (roles_from (role_records (part_at block.entry.start block.entry.bytes.now)))) }
{
    let level = RoleLevel::of(t);
    for (i, (at, s)) in RoleRecords::of(block.bytes).enumerate() {
        if let Some(event) = ill_formed_role(s, &level, i) {
            return Some(block.start + at + event);
        }
    }
    None
}
