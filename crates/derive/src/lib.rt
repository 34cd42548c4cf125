// Derive: whether a row's term is derivable from those of listed rows.
#![tactic(auto)]

ghost use Rattle.std.specs.Prelude.{◌≡◌, ◌<◌, length};
ghost use Rattle.semantics.specs.Value.{value_of, as_atoms};
ghost use Rattle.semantics.specs.Derive.{derived, derivable_row};
ghost use Rattle.rows.specs.Rows.{rows_of};
ghost use Rattle.role_level.specs.RoleLevel.{ListedBelow};
ghost use Rattle.answers.specs.Answers.{derived_as};
ghost use Rattle.derive.specs.Absent.{AbsentAt};

use answers::{Reason, Refusal};
use role_level::RoleLevel;
use rows::Table;

// Refusal 11: the place of the first listed row that is absent, or the list's length if the target is.
fn absent_at(list: &[u8], n: usize, target: u64) -> Option<usize>
    ensures { AbsentAt n list.now target result }
{
    list.iter()
        .position(|&row| n <= usize::from(row))
        .or_else(|| (n as u64 <= target).then_some(list.len()))
}

// Whether a row of a table is derivable from listed rows.
fn is_known(t: &Table, list: &[u8], target: usize) -> bool
    requires { ListedBelow t.now.rows list.now × (target < t.now.rows) }
    ensures { result ≡ derivable_row (rows_of t.now.bytes.now) list.now (value_of as_atoms (rows_of t.now.bytes.now) target) }
{
    RoleLevel::of(t).marks_of(list)[target]
}

// "Derive has a table, a list of rows (one byte each, any order, repeats allowed) and a target, role-level terms being atoms."
pub fn derive(t: &[u8], list: &[u8], target: u64) -> Result<bool, Refusal>
    ensures { result ≡ derived_as (derived t.now list.now target) }
{
    let n = table::check(t, 0)?;
    Reason::AbsentRow.at(absent_at(list, n, target))?;
    let t = Table::new(t, n, 0);
    Ok(is_known(&t, list, target as usize))
}
