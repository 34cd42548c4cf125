// The check of a table: refusals 4 and 5.
#![tactic(auto)]

ghost use Rattle.std.specs.Prelude.{◌≡◌, [], ◌+◌, ◌<◌, ◌≤◌, length, get_or};
ghost use Rattle.std.proofs.Math.ListN.{get_elem?};
ghost use Rattle.semantics.specs.Basic.{keep};
ghost use Rattle.semantics.specs.Table.{rows_from, agent_like, no_pair, variable_row, row_refusal};
ghost use Rattle.rows.specs.Rows.{decoded_at, rows_of};
ghost use Rattle.table.specs.Check.{fits_decoded, repeats_decoded, same_bytes, reason_as, judged_as};

use answers::{Reason, Refusal};
use rows::{Kind, Table};

// The limits of a table.
#[derive(Drop)]
pub struct TableLimits {}

impl TableLimits {
    pub const MOST_ROWS: usize = 96;

    pub const MOST_VARIABLES: usize = 8;

    pub const MOST_ROLES: usize = 4;
}

// Whether row a is one of the rows below and agent-like.
fn agent_like(below: &Table, a: usize) -> bool
    ensures { result ≡ agent_like (get_elem? (rows_of below.now.bytes.now) a) }
{
    a < below.rows
        && match below.kind_of(a) {
            Kind::Trusted | Kind::Untrusted | Kind::Role => true,
            Kind::Variable => below.right_of(a) == 0,
            _ => false,
        }
}

// Whether row a is one of the rows below and no pair.
fn no_pair(below: &Table, a: usize) -> bool
    ensures { result ≡ no_pair (get_elem? (rows_of below.now.bytes.now) a) }
{
    a < below.rows && below.kind_of(a) != Kind::Pair
}

// Whether the three bytes at the front are a row of some kind that fits the rows below it.
fn fits_row(below: &Table, row: &[u8]) -> bool
    requires { 3 ≤ length row.now }
    ensures { result ≡ fits_decoded (rows_of below.now.bytes.now) (decoded_at row.now 0) }
{
    let Some(kind) = Kind::of(row[0]) else {
        return false;
    };
    let left = usize::from(row[1]);
    let right = usize::from(row[2]);
    match kind {
        Kind::Trusted | Kind::Untrusted | Kind::Global | Kind::Intruder | Kind::Local => right == 0,
        Kind::Role => left < TableLimits::MOST_ROLES && right == 0,
        Kind::Variable => right <= 1,
        Kind::PublicKey | Kind::SecretKey => right == 0 && agent_like(below, left),
        Kind::SharedKey => agent_like(below, left) && agent_like(below, right),
        Kind::Pair => no_pair(below, left) && right < below.rows,
        Kind::Encrypted => left < below.rows && right < below.rows,
    }
}

// Whether the bytes of row j are the three at the front.
fn same_bytes(below: &Table, j: usize, row: &[u8]) -> bool
    requires { (j < below.now.rows) × (3 ≤ length row.now) }
    ensures { result ≡ same_bytes below.now.bytes.now j row.now }
{
    below.bytes[3 * j..3 * j + 3] == row[..3]
}

// Whether the row at the front repeats one of the rows below it.
fn repeats(below: &Table, row: &[u8]) -> bool
    requires { 3 ≤ length row.now }
    ensures { result ≡ repeats_decoded (rows_of below.now.bytes.now) (decoded_at row.now 0) }
{
    (0..below.rows).any(|j| same_bytes(below, j, row))
}

// How many variables there are with the row at the front, given how many there are below it.
fn with_variable(row: &[u8], variables: usize) -> usize
    requires { (1 ≤ length row.now) × (variables ≤ 8) }
    ensures { (get_or row.now 0 0 ≡ 6 → result ≡ variables + 1) × ((get_or row.now 0 0 ≡ 6 → ⊥) → result ≡ variables) }
{
    variables + usize::from(Kind::of(row[0]) == Some(Kind::Variable))
}

// Why the row at the front is refused after the rows below it, if it is: as a bad row or as a repeated one.
fn row_refusal(below: &Table, row: &[u8], variables: usize) -> Option<Reason>
    requires { (3 ≤ length row.now) × ((variables ≡ length (keep variable_row (rows_of below.now.bytes.now))) × (variables ≤ 8)) }
    ensures { result ≡ reason_as (row_refusal (rows_of below.now.bytes.now) (decoded_at row.now 0)) }
{
    if TableLimits::MOST_ROWS <= below.rows
        || TableLimits::MOST_VARIABLES < with_variable(row, variables)
    {
        return Some(Reason::Row);
    }
    if !fits_row(below, row) {
        return Some(Reason::Row);
    }
    repeats(below, row).then_some(Reason::RepeatedRow)
}

// The rows of a table that begins at a place: how many there are, or the first refusal.
pub fn check(t: &[u8], at: usize) -> Result<usize, Refusal>
    requires { at ≤ 65536 }
    ensures { result ≡ judged_as (rows_from at [] t.now) }
{
    let rows = t.len() / 3;
    let mut variables = 0;
    for i in 0..rows {
        let (below, row) = t.split_at(3 * i);
        if let Some(reason) = row_refusal(&Table::new(below, i, 0), row, variables) {
            let place = at + 3 * i;
            return Err(Refusal { reason, place });
        }
        variables = with_variable(row, variables);
    }
    if 3 * rows < t.len() {
        let place = at + 3 * rows;
        return Err(Refusal {
            reason: Reason::Row,
            place,
        });
    }
    Ok(rows)
}
