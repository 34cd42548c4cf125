// Lists of rows: which rows have a value if some atoms have none, and the first of a rising list that has none; refusal 9.
#![tactic(auto)]

ghost use Rattle.std.specs.Prelude.{◌≡◌, ◌<◌, ◌≤◌};
ghost use Rattle.semantics.specs.Basic.{unfit_from};
ghost use Rattle.semantics.specs.Value.{Reading};
ghost use Rattle.semantics.specs.Runs.{bad_knowledge_from};
ghost use Rattle.rows.specs.Kinds.{number_of};
ghost use Rattle.rows.specs.Rows.{place_as, rows_of};
ghost use Rattle.lists.specs.Lists.{Bars, Valued, clear_at, has_value};

use frame::Part;
use rows::{Kind, Table};

// The rows of a table: how many there are, and which of them have a value.
#[derive(Clone, Copy)]
pub struct ClearRows {
    pub count: usize,
    pub clear: [bool; 96],
    pub ghost few: { count ≤ 96 },
}

// Whether a row has a value if atoms of the kinds from low to high have none, given which of the rows below it have one.
fn clear_row(t: &Table, clear: &[bool; 96], r: usize, low: Kind, high: Kind) -> bool
    requires { r < t.now.rows }
    ensures { result ≡ clear_at (number_of low) (number_of high) t.now.bytes.now clear.now r }
{
    let kind = t.kind_of(r);
    if !kind.is_made() {
        return kind < low || high < kind;
    }
    clear[t.left_of(r)] && clear[t.second_of(r)]
}

// Which rows have a value if atoms of the kinds from low to high have none.
pub fn clear_rows(t: &Table, low: Kind, high: Kind) -> ClearRows
    ensures { (result.count ≡ t.now.rows) × ((reading : Reading) → Bars (number_of low) (number_of high) reading → Valued (rows_of t.now.bytes.now) reading result.clear) }
{
    let mut clear = [false; 96];
    for r in 0..t.rows {
        clear[r] = clear_row(t, &clear, r, low, high);
    }
    ClearRows {
        count: t.rows,
        clear,
    }
}

// The place of the first of some rows that is absent, has no value or is not above the one before it.
pub fn unfit_row(list: Part, rows: &ClearRows) -> Option<usize>
    ensures { result ≡ place_as (unfit_from (has_value rows.now.count rows.now.clear) list.entry.start 0 list.entry.bytes.now) }
{
    let mut least = 0;
    for (i, x) in list.bytes.iter().enumerate() {
        let r = usize::from(*x);
        if r < least || rows.count <= r || !rows.clear[r] {
            return Some(list.start + i);
        }
        least = r + 1;
    }
    None
}

// Refusal 9: the place of the first byte of the knowledge block against its rule.
pub fn bad_knowledge(block: Part, t: &Table) -> Option<usize>
    ensures { result ≡ place_as (bad_knowledge_from (rows_of t.now.bytes.now) block.entry.start 0 block.entry.bytes.now) }
{
    unfit_row(block, &clear_rows(t, Kind::Role, Kind::Local))
}
