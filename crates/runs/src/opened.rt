// A file, its table, and where its runs stand, as one value.
ghost use Rattle.std.specs.Prelude.{◌≡◌};
ghost use Rattle.semantics.specs.Scenario.{Scenario};
ghost use Rattle.semantics.specs.Guarantee.{Guarantee};
ghost use Rattle.runs.specs.Runs.{RunsAt};

use crate::Runs;
use rows::Table;

// A file in which the runs of some scenario stand: its bytes, its table, and where its runs stand.
#[derive(Clone, Copy)]
pub struct Opened<'a> {
    pub file: &'a [u8],
    pub table: Table<'a>,
    pub runs: Runs,
    pub ghost counted: { table.runs ≡ runs.count },
    pub ghost placed: { ∥ ((sc : Scenario) × RunsAt file.now sc runs × Guarantee sc) ∥₁ },
}
