// Open: a scenario file is accepted, with where its parts stand, or refused with number and place.
#![tactic(auto)]

ghost use Rattle.std.specs.Prelude.{◌≡◌, ℕ, ◌+◌, ◌≤◌, length};
ghost use Rattle.semantics.specs.Runs.{run_records};
ghost use Rattle.semantics.specs.Scenario.{term_part, role_count, scenario_of, opened};
ghost use Rattle.rows.specs.Rows.{rows_of, place_as};
ghost use Rattle.frame.specs.Framing.{IsFramed};
ghost use Rattle.records.specs.Records.{part_at};
ghost use Rattle.answers.specs.Answers.{layout_of, opened_as};
ghost use Rattle.scenario.specs.Opened.{GoodRoles, roles_refusal, judged_runs, judged_rows};

use answers::{Block, Layout, Reason, Refusal};
use frame::BlockKind;
use rows::Table;

// How many run records begin in a block.
fn run_count(b: &[u8], roles: usize) -> usize
    requires { roles ≤ 4 }
    ensures { (at : ℕ) → result ≡ length (run_records roles (part_at at b.now)) }
{
    b.len().div_ceil(1 + roles)
}

// A framed file with its table.
#[derive(Clone, Copy)]
struct Tabled<'a> {
    file: &'a [u8],
    table: Table<'a>,
    ghost framed: { IsFramed file.now },
    ghost its_table: { table.bytes.now ≡ (term_part file.now).bytes },
}

// Refusal 6, or none: a role record, or after all records a row that names an absent role.
fn judged_roles(tabled: &Tabled) -> Option<usize>
    ensures { result ≡ place_as (roles_refusal tabled.now.file.now (rows_of (term_part tabled.now.file.now).bytes)) }
{
    let roles = frame::part_of(tabled.file, BlockKind::Roles);
    let count = records::roles_present(roles.bytes);
    let first = frame::part_of(tabled.file, BlockKind::Terms).start;
    // bound first: of a closure made in the argument the proof would not know what it returns
    let absent = || records::absent_role(&tabled.table, count, first);
    records::bad_role(roles, &tabled.table).or_else(absent)
}

// Where the parts stand.
fn parts_of(tabled: &Tabled, roles: usize) -> Layout
    requires { (roles ≡ role_count tabled.now.file.now) × GoodRoles tabled.now.file.now }
    ensures { result ≡ layout_of tabled.now.file.now (scenario_of tabled.now.file.now (rows_of (term_part tabled.now.file.now).bytes)) }
{
    let runs = frame::part_of(tabled.file, BlockKind::Runs);
    let knowledge = frame::part_of(tabled.file, BlockKind::Knowledge);
    Layout {
        budget: frame::budget(tabled.file),
        terms: Block {
            start: frame::part_of(tabled.file, BlockKind::Terms).start,
            count: tabled.table.rows,
        },
        roles: Block {
            start: frame::part_of(tabled.file, BlockKind::Roles).start,
            count: roles,
        },
        runs: Block {
            start: runs.start,
            count: run_count(runs.bytes, roles),
        },
        knowledge: Block {
            start: knowledge.start,
            count: knowledge.bytes.len(),
        },
    }
}

// Refusals 8 and 9, or accepted, where roles and events are good.
fn judged_runs(tabled: &Tabled) -> Result<Layout, Refusal>
    requires { GoodRoles tabled.now.file.now }
    ensures { result ≡ opened_as tabled.now.file.now (judged_runs tabled.now.file.now (rows_of (term_part tabled.now.file.now).bytes)) }
{
    let roles = records::roles_present(frame::part_of(tabled.file, BlockKind::Roles).bytes);
    let runs = frame::part_of(tabled.file, BlockKind::Runs);
    let knowledge = frame::part_of(tabled.file, BlockKind::Knowledge);
    Reason::Run.at(records::bad_run(runs, &tabled.table, roles))?;
    Reason::Knowledge.at(lists::bad_knowledge(knowledge, &tabled.table))?;
    Ok(parts_of(tabled, roles))
}

// Refusals 6 to 9, or accepted.
fn judged(tabled: &Tabled) -> Result<Layout, Refusal>
    ensures { result ≡ opened_as tabled.now.file.now (judged_rows tabled.now.file.now (rows_of (term_part tabled.now.file.now).bytes)) }
{
    Reason::Role.at(judged_roles(tabled))?;
    let roles = frame::part_of(tabled.file, BlockKind::Roles);
    Reason::Event.at(open_wellformed::ill_formed(roles, &tabled.table))?;
    judged_runs(tabled)
}

// "Open, in this order."
pub fn open(file: &[u8]) -> Result<Layout, Refusal>
    ensures { result ≡ opened_as file.now (opened file.now) }
{
    frame::check(file)?;
    let terms = frame::part_of(file, BlockKind::Terms);
    let rows = table::check(terms.bytes, terms.start)?;
    judged(&Tabled {
        file,
        table: Table::new(terms.bytes, rows, 0),
    })
}
